// Discounts by compounded interest and their derivatives in rows: the base's logarithm is taken once, and the exps are worked out side by side.
ghost use Rattle.std.specs.Prelude.{◌≡◌, ◌≤◌, length};
ghost use Rattle.interestrate.specs.Prices.{compoundly, discount_and_derivative};
ghost use Rattle.interestrate.specs.laws.Rows.{Exponents, DiscountRow, RowRoom, Slopes};

use crate::rates::frequency_value;
use crate::{Compounding, Yield};
use elementary::exps::exp_row;
use elementary::ln::ln_at;
use floats::finite::not_finite;
use terms::Epoch;
use terms::time::time_from;

// The discount of each flow, and its derivative.
#[derive(Clone, Copy)]
pub struct FlowRow<'a> {
    pub discounts: &'a [f64],
    pub slopes: &'a [f64],
}

// Each flow's time, and the exponent of its discount.
fn exponents(
    frequency: f64,
    log: f64,
    settlement: Epoch,
    days: &[u32],
    times: &mut [f64],
    xs: &mut [f64],
)
    requires { (length times.old ≡ length days.now) × (length xs.old ≡ length days.now) }
    ensures { Exponents frequency log settlement days.now times.old xs.old times.new xs.new (length days.now) }
{
    for i in 0..days.len() {
        let time = time_from(settlement, days[i]);
        times[i] = time;
        xs[i] = (-frequency * time) * log;
    }
}

// Each flow's derivative. False where one isn't finite.
fn slope_row(base: f64, times: &[f64], discounts: &[f64], slopes: &mut [f64]) -> bool
    requires { (length discounts.now ≡ length times.now) × (length slopes.old ≡ length times.now) }
    ensures { Slopes result base times.now discounts.now slopes.old slopes.new (length times.now) }
{
    let mut good = true;
    for i in 0..times.len() {
        let slope = (-times[i] * discounts[i]) / base;
        slopes[i] = slope;
        good = good & (slope - slope == 0.0);
    }
    good
}

// Compounded interest of each flow, where it says true. Where it says false (a refusal, or an exponent that exp_row leaves aside), nothing is said of the rows. exp_row works in slopes and rests.
fn compounded_row(
    rate: f64,
    frequency: f64,
    settlement: Epoch,
    days: &[u32],
    discounts: &mut [f64],
    slopes: &mut [f64],
) -> bool
    requires { RowRoom (length days.now) discounts.old slopes.old }
    ensures { DiscountRow result (λ time. compoundly rate time frequency) settlement days.now discounts.new slopes.new }
{
    let base = rate / frequency + 1.0;
    if not_finite(base) {
        return false;
    }
    if base <= 0.0 {
        return false;
    }
    let Ok(log) = ln_at(base, 0) else {
        return false;
    };
    let n = days.len();
    if n > 64 {
        return false;
    }
    let mut times = [0.0; 64];
    let times = &mut times[..n];
    let mut xs = [0.0; 64];
    let xs = &mut xs[..n];
    let mut rests = [0.0; 64];
    exponents(frequency, log, settlement, days, times, xs);
    if !exp_row(xs, discounts, slopes, &mut rests[..n]) {
        return false;
    }
    slope_row(base, times, discounts, slopes)
}

// The discount and derivative of each flow, where it says true: of compounded interest alone. A bool, since the rows are the
// caller's and there is no value to answer with.
pub fn discount_row(at: Yield, days: &[u32], discounts: &mut [f64], slopes: &mut [f64]) -> bool
    requires { RowRoom (length days.now) discounts.old slopes.old }
    ensures { DiscountRow result (λ time. discount_and_derivative at.rate time at.compounding) at.settlement days.now discounts.new slopes.new }
{
    let Compounding::Compounded(f) = at.compounding else {
        return false;
    };
    compounded_row(
        at.rate,
        frequency_value(f),
        at.settlement,
        days,
        discounts,
        slopes,
    )
}
