// 40: the desks of all bonds.

ghost use Rattle.std.specs.Prelude.{◌≡◌, ◌≤◌, ltb, get_or};
ghost use Rattle.floats.specs.declared.Reason.TheVariants as reason;
ghost use Rattle.terms.specs.Checks as checks;
ghost use Rattle.bookchecks.specs.Checks.{first_refused};
ghost use Rattle.bookchecks.specs.laws.Holdings.{past_end};

use crate::naming::at_bond;
use crate::{Book, Holding, RefusedBond};
use floats::Reason;
use terms::refusing::single;

// The lowest bond whose desk is outside 0 to 7.
pub fn desk_checks(held: [Holding; 32], size: usize) -> Result<(), RefusedBond>
    requires { size ≤ 32 }
    ensures { result ≡ first_refused (λ i. checks.single reason.Desk 0 (ltb 7 (get_or held i past_end).desk)) size 0 }
{
    for i in 0..size {
        let bond = held[i];
        at_bond(i as u32, single(Reason::Desk, Book::LAST_DESK < bond.desk))?;
    }
    Ok(())
}
