// A finite number by its sign, its digits and their place.

ghost use Rattle.std.specs.Prelude.{◌≡◌, ◌+◌, ◌*◌, ◌^◌, ◌≤◌, ◌<◌, T};
ghost use Rattle.std.specs.Float.Ieee.Scale.{finite};
ghost use Rattle.rounded.specs.laws.Parts.{Ample, Parted};

use crate::pack::lift;
use floats::fields::{FIELD_ONE, SIGN_BIT};

// ± digits * 2^place, in units that the function says.
#[derive(Clone, Copy)]
pub struct Parts<D> {
    pub neg: bool,
    pub digits: D,
    pub place: u32,
}

// m * 2^k smallest doubles, with 63 digits.
fn raised(neg: bool, m: u64, k: u32) -> Parts<u64>
    requires { (1 ≤ m) × (m < 9007199254740992) × (k ≤ 2045) }
    ensures { (result.neg ≡ neg) × (result.digits * 2 ^ result.place ≡ m * 2 ^ (k + 62)) × Ample result.digits result.place }
{
    let up = lift(m) - 1;
    Parts {
        neg,
        digits: m << up,
        place: k + 62 - up,
    }
}

// The sign, and digits * 2^place / 2^1136 with 63 digits, or 0 for a zero.
pub fn split(x: f64) -> Parts<u64>
    requires { T (finite x) }
    ensures { Parted x result.neg result.digits result.place }
{
    let bits = f64::to_bits(x);
    let neg = bits >= SIGN_BIT;
    let field = bits / FIELD_ONE % 2048;
    let tail = bits % FIELD_ONE;
    if field > 0 {
        raised(neg, tail + FIELD_ONE, (field - 1) as u32)
    } else if tail > 0 {
        raised(neg, tail, 0)
    } else {
        Parts {
            neg,
            digits: 0,
            place: 0,
        }
    }
}
