// min: the lesser of two numbers, the first where they are equal.

ghost use Rattle.std.specs.Prelude.{◌≡◌};
ghost use Rattle.floats.specs.Extremes.{min_of, min_at, min_alone};

use crate::Refusal;
use crate::finite::{given, tested};

// The lesser of two floats, whatever they are.
#[inline]
#[tactic(auto, unfolding(crate::specs::Extremes::min_of))]
pub fn lesser(a: f64, b: f64) -> f64
    ensures { result ≡ min_of a b }
{
    if b < a { b } else { a }
}

// min of two finite numbers, met on the way at a place.
pub fn min_at(a: f64, b: f64, place: u32) -> Result<f64, Refusal>
    ensures { result ≡ min_at a b place }
{
    Ok(lesser(tested(a, place)?, tested(b, place)?))
}

// min called alone.
pub fn min(a: f64, b: f64) -> Result<f64, Refusal>
    ensures { result ≡ min_alone a b }
{
    min_at(given(a)?, given(b)?, 0)
}
