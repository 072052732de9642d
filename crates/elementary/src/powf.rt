// powf: exp(y × ln(b)), as the tree uses it and called alone.

ghost use Rattle.std.specs.Prelude.{◌≡◌};
ghost use Rattle.elementary.specs.Power.{powf_at, powf_alone};

use crate::exp::exp_at;
use crate::ln::ln_at;
use floats::Refusal;
use floats::finite::{given, tested};

// powf met on the way, at a place.
pub fn powf_at(b: f64, y: f64, place: u32) -> Result<f64, Refusal>
    ensures { result ≡ powf_at b y place }
{
    let t = tested(y * ln_at(b, place)?, place)?;
    exp_at(t, place)
}

// powf called alone.
pub fn powf(b: f64, y: f64) -> Result<f64, Refusal>
    ensures { result ≡ powf_alone b y }
{
    powf_at(given(b)?, given(y)?, 0)
}
