// Whether a number is finite: the test that follows every operation.

ghost use Rattle.std.specs.Prelude.{◌≡◌, Ok};
ghost use Rattle.floats.specs.Answers.{not_finite, tested, when_given};

use crate::refusals::overflow;
use crate::{Reason, Refusal};

// True for an infinity and for a NaN.
#[inline]
pub fn not_finite(x: f64) -> bool
    ensures { result ≡ not_finite x }
{
    let infinity = 1.0 / 0.0;
    !(-infinity < x && x < infinity)
}

// The result of an operation at a place, or 27.
#[inline]
pub fn tested(x: f64, place: u32) -> Result<f64, Refusal>
    ensures { result ≡ tested x place }
{
    if not_finite(x) {
        return overflow(place);
    }
    Ok(x)
}

// The argument of a function that is called alone, or 4 at place 0.
pub fn given(x: f64) -> Result<f64, Refusal>
    ensures { result ≡ when_given x (Ok x) }
{
    if not_finite(x) {
        return Err(Refusal {
            reason: Reason::Number,
            place: 0,
        });
    }
    Ok(x)
}
