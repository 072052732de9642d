// ceil: the lowest whole number that is not below the given one, and +0 for a zero.

ghost use Rattle.std.specs.Prelude.{◌≡◌, cond, ◌+◌, ◌-◌, ◌/◌, ◌^◌, ◌<◌, ◌≤◌, T, leb, eqb};
ghost use Rattle.std.specs.Float.Ieee.Scale.{finite};
ghost use Rattle.floats.specs.Answers.{plus_zero, one};
ghost use Rattle.floats.specs.Whole.{ceiled, ceil_at, ceil_alone};

use crate::Refusal;
use crate::fields::{FIELD_ONE, SIGN_BIT};
use crate::finite::{given, tested};
use crate::sign::signed;

// digits / 2^places, a part of a unit counting as one.
fn part_up(digits: u64, places: u64) -> u64
    requires { (digits < 9007199254740992) × (places ≤ 53) }
    ensures { result ≡ (digits + (2 ^ places - 1)) / 2 ^ places }
{
    let unit = 1 << places;
    (digits + (unit - 1)) >> places
}

// The lowest whole number that is not below a number of less than 1 in size, given by its bits.
fn small_up(bits: u64) -> f64
    ensures { result ≡ cond (leb 9223372036854775808 bits) plus_zero (cond (eqb bits 0) plus_zero one) }
{
    if bits >= SIGN_BIT || bits == 0 {
        0.0
    } else {
        1.0
    }
}

// The lowest whole number that is not below a finite number. By the exponent's field it lies below 1 in size, or is whole,
// or has `places` binary places.
fn upwards(x: f64) -> f64
    requires { T (finite x) }
    ensures { result ≡ ceiled x }
{
    let bits = f64::to_bits(x);
    let field = bits % SIGN_BIT / FIELD_ONE;
    if field < 1023 {
        return small_up(bits);
    }
    if field > 1074 {
        return x;
    }
    let digits = bits % FIELD_ONE + FIELD_ONE;
    let places = 1075 - field;
    if bits >= SIGN_BIT {
        return signed(true, digits >> places);
    }
    signed(false, part_up(digits, places))
}

// ceil of a finite number, met on the way at a place.
pub fn ceil_at(x: f64, place: u32) -> Result<f64, Refusal>
    ensures { result ≡ ceil_at x place }
{
    Ok(upwards(tested(x, place)?))
}

// ceil called alone.
pub fn ceil(x: f64) -> Result<f64, Refusal>
    ensures { result ≡ ceil_alone x }
{
    ceil_at(given(x)?, 0)
}
