// midpoint: (a + b)/2.

ghost use Rattle.std.specs.Prelude.{◌≡◌};
ghost use Rattle.floats.specs.Middle.{midpoint_at, midpoint_alone};

use crate::Refusal;
use crate::finite::{given, tested};

// midpoint of two finite numbers, met on the way at a place.
pub fn midpoint_at(a: f64, b: f64, place: u32) -> Result<f64, Refusal>
    ensures { result ≡ midpoint_at a b place }
{
    let s = tested(a + b, place)?;
    tested(s / 2.0, place)
}

// midpoint called alone.
pub fn midpoint(a: f64, b: f64) -> Result<f64, Refusal>
    ensures { result ≡ midpoint_alone a b }
{
    midpoint_at(given(a)?, given(b)?, 0)
}
