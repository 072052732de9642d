// mul_add: the exact a * b + c, rounded once.

ghost use Rattle.std.specs.Prelude.{◌≡◌, ◌+◌, ◌-◌, ◌*◌, ◌/◌, ◌^◌, ◌≤◌, ◌<◌, T};
ghost use Rattle.std.specs.Float.Ieee.Scale.{finite};
ghost use Rattle.rounded.specs.Fused.{rounded_sum, mul_add, mul_add_at, mul_add_alone};
ghost use Rattle.rounded.specs.laws.Packing.{scale};
ghost use Rattle.rounded.specs.laws.Parts.{Joinable};
ghost use Rattle.rounded.specs.laws.RoundToOdd.{Odd};

use crate::pack::{pack_wide, shift};
use crate::product::product;
use crate::split::{Parts, split};
use floats::Refusal;
use floats::finite::{given, tested};

// A number by its parts, and +0 for 0.
fn unless_zero(neg: bool, digits: u128, place: u32) -> f64
    requires { (64 ≤ place) × (place ≤ 9000) }
    ensures { result ≡ rounded_sum neg (digits * 2 ^ place) neg 0 (2 ^ scale) }
{
    if digits == 0 {
        0.0
    } else {
        pack_wide(neg, digits, place)
    }
}

// The sum of two numbers at the same place.
fn combine(x: Parts<u128>, y: Parts<u128>) -> f64
    requires sum { x.digits + y.digits < 2 ^ 128 }
    requires same { x.place ≡ y.place }
    requires le_e { (64 ≤ x.place) × (x.place ≤ 9000) }
    ensures { result ≡ rounded_sum x.neg (x.digits * 2 ^ x.place) y.neg (y.digits * 2 ^ y.place) (2 ^ scale) }
{
    if x.neg == y.neg {
        unless_zero(x.neg, x.digits + y.digits, x.place)
    } else if x.digits < y.digits {
        unless_zero(y.neg, y.digits - x.digits, y.place)
    } else {
        unless_zero(x.neg, x.digits - y.digits, x.place)
    }
}

// The same number at a place that is no lower, rounded to odd.
fn lowered(x: Parts<u128>, place: u32) -> Parts<u128>
    requires { (1 ≤ x.digits) × (x.place ≤ place) }
    ensures sign { result.neg ≡ x.neg }
    ensures place { result.place ≡ place }
    ensures odd { Odd x.digits (2 ^ (place - x.place)) result.digits }
    ensures least { result.digits ≤ x.digits }
{
    Parts {
        neg: x.neg,
        digits: shift(x.digits, place - x.place),
        place,
    }
}

// The sum of a product and an addend: the one with the lower place is moved down to the other.
fn join(x: Parts<u128>, y: Parts<u128>) -> f64
    requires joinable { Joinable x.digits y.digits }
    requires le_x { (64 ≤ x.place) × (x.place ≤ 9000) }
    requires le_y { (64 ≤ y.place) × (y.place ≤ 9000) }
    ensures { result ≡ rounded_sum x.neg (x.digits * 2 ^ x.place) y.neg (y.digits * 2 ^ y.place) (2 ^ scale) }
{
    if x.place >= y.place {
        combine(x, lowered(y, x.place))
    } else {
        combine(lowered(x, y.place), y)
    }
}

// mul_add of finite numbers.
fn fused(x: f64, y: f64, z: f64) -> f64
    requires { T (finite x) × T (finite y) × T (finite z) }
    ensures { result ≡ mul_add x y z }
{
    let a = split(x);
    let b = split(y);
    let c = split(z);
    let both = Parts {
        neg: a.neg != b.neg,
        digits: product(a.digits, b.digits),
        place: a.place + b.place + 64,
    };
    let addend = Parts {
        neg: c.neg,
        digits: (c.digits as u128) << 64,
        place: c.place + 1136,
    };
    if both.digits == 0 {
        unless_zero(addend.neg, addend.digits, addend.place)
    } else if addend.digits == 0 {
        unless_zero(both.neg, both.digits, both.place)
    } else {
        join(both, addend)
    }
}

// mul_add of numbers met on the way at a place.
pub fn mul_add_at(x: f64, y: f64, z: f64, place: u32) -> Result<f64, Refusal>
    ensures { result ≡ mul_add_at x y z place }
{
    let r = fused(tested(x, place)?, tested(y, place)?, tested(z, place)?);
    tested(r, place)
}

// mul_add called alone.
pub fn mul_add(x: f64, y: f64, z: f64) -> Result<f64, Refusal>
    ensures { result ≡ mul_add_alone x y z }
{
    mul_add_at(given(x)?, given(y)?, given(z)?, 0)
}
