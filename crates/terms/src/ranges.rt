// Whether a number lies outside its range.

ghost use Rattle.std.specs.Prelude.{◌≡◌};
ghost use Rattle.terms.specs.Checks.{outside, no_day, beyond, not_above, not_up_to};

use crate::limits::Day;
use floats::finite::not_finite;

// Outside low..high.
pub fn out_of(low: usize, high: usize, n: usize) -> bool
    ensures { result ≡ outside low high n }
{
    n < low || high < n
}

// No day from 0 to 200,000.
pub fn no_day(day: u32) -> bool
    ensures { result ≡ no_day day }
{
    Day::LAST < day
}

// Not finite, or not within ±limit.
pub fn not_within(limit: f64, x: f64) -> bool
    ensures { result ≡ beyond limit x }
{
    not_finite(x) || x < -limit || limit < x
}

// Not finite, or not above 0 and up to limit.
pub fn not_above(limit: f64, x: f64) -> bool
    ensures { result ≡ not_above limit x }
{
    not_finite(x) || x <= 0.0 || limit < x
}

// Not finite, or not 0 to limit.
pub fn not_up_to(limit: f64, x: f64) -> bool
    ensures { result ≡ not_up_to limit x }
{
    not_finite(x) || x < 0.0 || limit < x
}
