// How a cause becomes a check: refused with its reason and place.

ghost use Rattle.std.specs.Prelude.{◌≡◌, ◌≤◌, ◌<◌, ℕ, Bool, Err};
ghost use Rattle.terms.specs.Checks as checks;
ghost use Rattle.terms.specs.Checks.{lowest};

use floats::{Reason, Refusal};

// Refused for this reason, of any type, at an index, which is the place.
pub fn refused_at<T, R>(reason: R, i: usize) -> Result<T, Refusal<R>>
    requires { i ≤ 256 }
    ensures { result ≡ Err (record { reason = reason; place = i }) }
{
    Err(Refusal {
        reason,
        place: i as u32,
    })
}

// Refused for this reason, of any type, at place 0 where the cause holds.
pub fn single<R: Drop>(reason: R, bad: bool) -> Result<(), Refusal<R>>
    ensures { result ≡ checks.single reason 0 bad }
{
    if bad { refused_at(reason, 0) } else { Ok(()) }
}

// Refused for this reason at the lowest of count indices at which the cause holds.
pub fn refused_first<F: Fn(usize) -> bool>(
    reason: Reason,
    count: usize,
    bad: F,
) -> Result<(), Refusal>
    requires few { count ≤ 256 }
    requires callable { (i : ℕ) → i < count → F.pre bad i }
    ensures { (cause : ℕ → Bool) → ((i : ℕ) (r : Bool) → i < count → F.post bad i r → r ≡ cause i) → result ≡ lowest reason cause count 0 }
{
    for i in 0..count {
        if bad(i) {
            return refused_at(reason, i);
        }
    }
    Ok(())
}
