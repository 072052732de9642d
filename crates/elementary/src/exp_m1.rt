// exp_m1, exp less 1, as the tree uses it and called alone.

ghost use Rattle.std.specs.Prelude.{◌≡◌};
ghost use Rattle.elementary.specs.Exponential.{exp_m1_at, exp_m1_alone};

use crate::exp::{exp_at, series};
use floats::Refusal;
use floats::finite::{given, tested};

// exp_m1 met on the way, at a place: near 0 x × p, with n from 13 down to 2, and elsewhere exp(x) − 1.
pub fn exp_m1_at(x: f64, place: u32) -> Result<f64, Refusal>
    ensures { result ≡ exp_m1_at x place }
{
    let x = tested(x, place)?;
    if -0.5 < x && x < 0.5 {
        tested(x * series(x, 1), place)
    } else {
        tested(exp_at(x, place)? - 1.0, place)
    }
}

// exp_m1 called alone.
pub fn exp_m1(x: f64) -> Result<f64, Refusal>
    ensures { result ≡ exp_m1_alone x }
{
    exp_m1_at(given(x)?, 0)
}
