// ln, as the tree uses it and called alone.

ghost use Rattle.std.specs.Prelude.{◌≡◌};
ghost use Rattle.std.specs.Float.{binary64};
ghost use Rattle.std.specs.Float.Ieee.{of_bits};
ghost use Rattle.elementary.specs.Logarithm.{fraction, exponent, ln_at, ln_alone};
ghost use Rattle.elementary.specs.laws.Logarithm.{plain_log_series, plain_ln, log_start};
ghost use Rattle.elementary.specs.laws.Normal.{Normal, Loggable};

use crate::exp::{LN2_HIGH, LN2_LOW};
use floats::fields::FIELD_ONE;
use floats::finite::{given, tested};
use floats::{Reason, Refusal};

// The digit after the leading one: it says whether a number is 1.5 or more.
const HALF_DIGIT: u64 = FIELD_ONE / 2;

// q from 1/21, becoming q × z + 1/(2j+1) for j from 9 down to 0.
fn series(z: f64) -> f64
    ensures { result ≡ plain_log_series 10 z log_start }
{
    let mut q = 1.0 / 21.0;
    for j in (0..10u32).rev() {
        q = q * z + 1.0 / (2 * j + 1) as f64;
    }
    q
}

// The m of x = m × 2^k, 0.75 ≤ m < 1.5, from the bits of x: the same digits, and the exponent's field 1023 or, from 1.5 on, 1022.
fn fraction_of(bits: u64) -> f64
    requires { Normal bits }
    ensures { result ≡ fraction (of_bits binary64 bits) }
{
    let digits = bits % FIELD_ONE;
    let up = digits / HALF_DIGIT;
    f64::from_bits((1023 - up) * FIELD_ONE + digits)
}

// The k of x = m × 2^k.
fn exponent_of(bits: u64) -> f64
    requires { Normal bits }
    ensures { result ≡ exponent (of_bits binary64 bits) }
{
    let up = bits % FIELD_ONE / HALF_DIGIT;
    let field = bits / FIELD_ONE + up;
    field as f64 - 1023.0
}

// ln of a finite number that is not below 2^−1022, with no test: what isn't finite on the way isn't finite at the end.
fn straight(x: f64) -> f64
    requires { Loggable x }
    ensures { result ≡ plain_ln x }
{
    let bits = f64::to_bits(x);
    let m = fraction_of(bits);
    let k = exponent_of(bits);
    let s = (m - 1.0) / (m + 1.0);
    let q = series(s * s);
    k * LN2_HIGH + ((2.0 * s) * q + k * LN2_LOW)
}

// ln met on the way, at a place.
pub fn ln_at(x: f64, place: u32) -> Result<f64, Refusal>
    ensures { result ≡ ln_at x place }
{
    let x = tested(x, place)?;
    if x < f64::MIN_POSITIVE {
        return Err(Refusal {
            reason: Reason::Outside,
            place,
        });
    }
    tested(straight(x), place)
}

// ln called alone.
pub fn ln(x: f64) -> Result<f64, Refusal>
    ensures { result ≡ ln_alone x }
{
    ln_at(given(x)?, 0)
}
