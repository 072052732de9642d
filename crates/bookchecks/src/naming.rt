// The bond that is refused, named.

ghost use Rattle.std.specs.Prelude.{◌≡◌};
ghost use Rattle.bookchecks.specs.Checks.{at_bond};

use crate::RefusedBond;
use floats::Refusal;

// What is found of one bond, with the bond named where it is refused.
pub fn at_bond<T>(bond: u32, outcome: Result<T, Refusal>) -> Result<T, RefusedBond>
    ensures { result ≡ at_bond bond outcome }
{
    outcome.map_err(|refusal| RefusedBond { bond, refusal })
}
