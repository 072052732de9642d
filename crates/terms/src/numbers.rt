// Whether a number of a list lies outside its range.

ghost use Rattle.std.specs.Prelude.{◌≡◌, ◌<◌, ◌≤◌, length, get_or};
ghost use Rattle.floats.specs.Answers.{plus_zero};
ghost use Rattle.floats.specs.declared.Reason.TheVariants as reason;
ghost use Rattle.terms.specs.Checks.{beyond, not_above, not_up_to, indexed};

use crate::ranges::{not_above, not_up_to, not_within};
use crate::refusing::refused_first;
use floats::{Reason, Refusal};

// Not above 0 and up to limit, at an index.
pub fn not_above_at(limit: f64, xs: &[f64], i: usize) -> bool
    requires { i < length xs.now }
    ensures { result ≡ not_above limit (get_or xs.now i plus_zero) }
{
    not_above(limit, xs[i])
}

// Not 0 to limit, at an index.
pub fn not_up_to_at(limit: f64, xs: &[f64], i: usize) -> bool
    requires { i < length xs.now }
    ensures { result ≡ not_up_to limit (get_or xs.now i plus_zero) }
{
    not_up_to(limit, xs[i])
}

// 4: numbers within ±limit.
pub fn all_within(limit: f64, xs: &[f64]) -> Result<(), Refusal>
    requires { length xs.now ≤ 256 }
    ensures { result ≡ indexed reason.Number (λ i. beyond limit (get_or xs.now i plus_zero)) xs.now }
{
    refused_first(Reason::Number, xs.len(), |i| not_within(limit, xs[i]))
}
