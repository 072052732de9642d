// exp, as the tree uses it and called alone.

ghost use Rattle.std.specs.Prelude.{◌≡◌, ◌-◌};
ghost use Rattle.floats.specs.Answers.{one};
ghost use Rattle.elementary.specs.Exponential.{power_of_two, exp_at, exp_alone};
ghost use Rattle.elementary.specs.laws.Exponential.{plain_series, plain_exp, steps};
ghost use Rattle.elementary.specs.laws.Steps.{Step, Reducible};

use floats::fields::FIELD_ONE;
use floats::finite::{given, tested};
use floats::round::near;
use floats::{Reason, Refusal};
use std::f64::consts::LOG2_E;

// ln 2 in two parts, hi and lo: the bits 3FE62E42FEE00000 and 3DEA39EF35793C76.
pub(crate) const LN2_HIGH: f64 = 0.6931471803691238;

pub(crate) const LN2_LOW: f64 = 1.9082149292705877e-10;

// p from a start, becoming 1 + (r × p)/n for n from high down to low + 1.
pub(crate) fn terms(r: f64, start: f64, high: u32, low: u32) -> f64
    ensures { result ≡ plain_series low (high - low) r start }
{
    let mut p = start;
    for n in (low..high).rev() {
        p = 1.0 + r * p / (n + 1) as f64;
    }
    p
}

// p from 1, for n from 13 down to low + 1.
pub(crate) fn series(r: f64, low: u32) -> f64
    ensures { result ≡ plain_series low (13 - low) r one }
{
    terms(r, 1.0, 13, low)
}

// 2^k, from the exponent's field of its bits.
pub(crate) fn power_of_two(k: f64) -> f64
    requires { Step k }
    ensures { result ≡ power_of_two k }
{
    let field = (k + 1023.0) as u32;
    f64::from_bits(field as u64 * FIELD_ONE)
}

// exp of a number from −700 to 700, with no test: what isn't finite on the way isn't finite at the end.
fn reduced(x: f64) -> f64
    requires { Reducible x }
    ensures { result ≡ plain_exp x (steps x) }
{
    let k = near(x * LOG2_E);
    let r = (x - k * LN2_HIGH) - k * LN2_LOW;
    series(r, 0) * power_of_two(k)
}

// exp met on the way, at a place.
pub fn exp_at(x: f64, place: u32) -> Result<f64, Refusal>
    ensures { result ≡ exp_at x place }
{
    let x = tested(x, place)?;
    if x > 700.0 {
        return Err(Refusal {
            reason: Reason::Outside,
            place,
        });
    }
    if x < -700.0 {
        return Ok(0.0);
    }
    tested(reduced(x), place)
}

// exp called alone.
pub fn exp(x: f64) -> Result<f64, Refusal>
    ensures { result ≡ exp_alone x }
{
    exp_at(given(x)?, 0)
}
