// max: the greater of two numbers, the first where they are equal.

ghost use Rattle.std.specs.Prelude.{◌≡◌};
ghost use Rattle.floats.specs.Extremes.{max_of, max_at, max_alone};

use crate::Refusal;
use crate::finite::{given, tested};

// The greater of two floats, whatever they are.
#[inline]
#[tactic(auto, unfolding(crate::specs::Extremes::max_of))]
pub fn greater(a: f64, b: f64) -> f64
    ensures { result ≡ max_of a b }
{
    if a < b { b } else { a }
}

// max of two finite numbers, met on the way at a place.
pub fn max_at(a: f64, b: f64, place: u32) -> Result<f64, Refusal>
    ensures { result ≡ max_at a b place }
{
    Ok(greater(tested(a, place)?, tested(b, place)?))
}

// max called alone.
pub fn max(a: f64, b: f64) -> Result<f64, Refusal>
    ensures { result ≡ max_alone a b }
{
    max_at(given(a)?, given(b)?, 0)
}
