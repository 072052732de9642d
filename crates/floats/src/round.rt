// round: the nearest whole number, a half going away from zero, and +0 for a zero.

ghost use Rattle.std.specs.Prelude.{◌≡◌, ◌+◌, ◌*◌, ◌/◌, ◌^◌, ◌<◌, ◌≤◌, T};
ghost use Rattle.std.specs.Float.Ieee.Scale.{finite};
ghost use Rattle.floats.specs.Whole.{rounded, round_at, round_alone};

use crate::Refusal;
use crate::fields::{FIELD_ONE, SIGN_BIT};
use crate::finite::{given, tested};
use crate::sign::signed;

// The whole number nearest to digits / 2^places, a half going up.
fn half_up(digits: u64, places: u64) -> u64
    requires { (digits < 9007199254740992) × (1 ≤ places) × (places ≤ 53) }
    ensures { result ≡ (2 * digits + 2 ^ places) / (2 * 2 ^ places) }
{
    let half = 1 << (places - 1);
    (digits + half) >> places
}

// The whole number nearest to a finite number. By the exponent's field it lies below 1/2 in size, or is whole, or has
// `places` binary places.
pub fn near(x: f64) -> f64
    requires { T (finite x) }
    ensures { result ≡ rounded x }
{
    let bits = f64::to_bits(x);
    let field = bits % SIGN_BIT / FIELD_ONE;
    if field < 1022 {
        return 0.0;
    }
    if field > 1074 {
        return x;
    }
    let digits = bits % FIELD_ONE + FIELD_ONE;
    let q = half_up(digits, 1075 - field);
    signed(bits >= SIGN_BIT, q)
}

// round of a finite number, met on the way at a place.
pub fn round_at(x: f64, place: u32) -> Result<f64, Refusal>
    ensures { result ≡ round_at x place }
{
    Ok(near(tested(x, place)?))
}

// round called alone.
pub fn round(x: f64) -> Result<f64, Refusal>
    ensures { result ≡ round_alone x }
{
    round_at(given(x)?, 0)
}
