// The double nearest to a decimal fraction, by long division in binary.
ghost use Rattle.std.specs.Prelude.{◌≡◌, ◌^◌, ◌≤◌, ◌<◌};
ghost use Rattle.std.specs.Float.{binary64};
ghost use Rattle.std.specs.Float.Ieee.{round};
ghost use Rattle.decimal.specs.laws.Division.{Divided};

use rounded::pack::{pack, sticky};

// A quotient with its rest, after a number of doublings.
#[derive(Clone, Copy)]
struct Quotient {
    whole: u64,
    rest: u64,
    doublings: u32,
}

// The least number that has 63 binary digits.
const LONG: u64 = 1 << 62;

// Zero's exponent, in which nothing is packed.
const LEAST_EXPONENT: u32 = 64;

// The exponent of a whole number, counted from that of the smallest doubles, in which the quotient is packed.
const ONE_EXPONENT: u32 = 2336;

// digits / divisor, doubled until the quotient has 63 binary digits. The doublings are counted because they are answered,
// and there is no count to stop at.
fn divide(digits: u64, divisor: u64) -> Quotient
    requires { (1 ≤ digits) × (1 ≤ divisor) × (divisor < 2 ^ 52) }
    ensures { Divided digits divisor result.whole result.rest result.doublings }
{
    let mut whole = digits / divisor;
    let mut rest = digits % divisor;
    let mut doublings = 0;
    while whole < LONG {
        let twice = 2 * rest;
        whole = 2 * whole + twice / divisor;
        rest = twice % divisor;
        doublings += 1;
    }
    Quotient {
        whole,
        rest,
        doublings,
    }
}

// The double nearest to digits / 10^places, with the sign.
#[tactic(auto, using(crate::proofs::division::Rounding::quotients))]
pub fn nearest(negative: bool, digits: u64, places: u32) -> f64
    requires { places ≤ 22 }
    ensures { result ≡ round binary64 negative digits (10 ^ places) }
{
    if digits == 0 {
        return pack(negative, 0, LEAST_EXPONENT);
    }
    let q = divide(digits, 5u64.pow(places));
    let w = sticky(q.whole, q.rest);
    pack(negative, w, ONE_EXPONENT - q.doublings - places)
}
