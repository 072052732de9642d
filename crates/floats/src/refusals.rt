// 27, for results of every kind.

ghost use Rattle.std.specs.Prelude.{◌≡◌};
ghost use Rattle.floats.specs.Answers.{refusal};
ghost use Rattle.floats.specs.declared.Reason.TheVariants as reason;

use crate::{Reason, Refusal};

// The result of an operation isn't finite.
#[inline]
pub fn overflow_refusal(place: u32) -> Refusal
    ensures { result ≡ record { reason = reason.NotFinite; place = place } }
{
    Refusal {
        reason: Reason::NotFinite,
        place,
    }
}

// 27 in place of a result.
#[inline]
pub fn overflow<T>(place: u32) -> Result<T, Refusal>
    ensures { result ≡ refusal reason.NotFinite place }
{
    Err(overflow_refusal(place))
}
