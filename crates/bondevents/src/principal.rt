// The principal that a call cancels: the redemptions after it.

ghost use Rattle.std.specs.Prelude.{◌≡◌, Bool, cond, ◌&&◌, List, ℕ, ◌<◌, ◌≤◌, length, get_or, ltb, eqb};
ghost use Rattle.std.specs.Float.{binary64};
ghost use Rattle.std.specs.Float.Ieee.{add};
ghost use Rattle.floats.specs.Answers.{plus_zero};
ghost use Rattle.bondevents.specs.Calls.{counted, redemptions, redemption_step_of};
ghost use Rattle.terms.specs.Market.{leg_in};
ghost use Rattle.bondevents.specs.Parts.{axis_in, FlowSteps, Principals};

use crate::axis::Axis;
use crate::steps::step_of;
use terms::market::Leg;

// The sum with one more cashflow, where that is a redemption after the call.
fn with_redemption(total: f64, kind: u8, after: bool, amount: f64) -> f64
    ensures { result ≡ cond (eqb kind 1 && after) (add binary64 total amount) total }
{
    if kind == 1 {
        if after {
            return total + amount;
        }
        return total;
    }
    total
}

// The redemptions that are counted, by their index, added in list order.
fn redeemed<F: Fn(usize) -> bool>(kinds: &[u8], amounts: &[f64], counted: F) -> f64
    requires amounts_too { length amounts.now ≡ length kinds.now }
    requires callable { (i : ℕ) → i < length kinds.now → F.pre counted i }
    ensures { (after : ℕ → Bool) (days : List ℕ) → length kinds.now ≤ length days → ((i : ℕ) (r : Bool) → i < length kinds.now → F.post counted i r → r ≡ after (get_or days i 0)) → result ≡ redemptions after days kinds.now amounts.now plus_zero }
{
    let mut total = 0.0;
    for i in 0..kinds.len() {
        total = with_redemption(total, kinds[i], counted(i), amounts[i]);
    }
    total
}

// Discrete: the redemptions after the call day.
pub fn call_principal(leg: Leg<'_>, date: u32) -> f64
    requires { (length leg.kinds.now ≡ length leg.days.now) × (length leg.amounts.now ≡ length leg.days.now) }
    ensures { result ≡ counted (leg_in leg) (ltb date) }
{
    redeemed(leg.kinds, leg.amounts, |i| date < leg.days[i])
}

// A redemption's step: its day's, or 0 where it is repaid, on or before settlement.
fn redemption_step_of(axis: Axis, day: u32) -> usize
    ensures { result ≡ redemption_step_of (axis_in axis) day }
{
    if axis.settlement.day < day {
        return step_of(axis, day);
    }
    0
}

// The step that each cashflow has as a redemption, worked out once.
pub fn flow_steps(axis: Axis, days: &[u32]) -> [usize; 256]
    requires days_len_bound { length days.now ≤ 256 }
    ensures { FlowSteps (axis_in axis) days.now result }
{
    let mut table = [0usize; 256];
    for i in 0..days.len() {
        table[i] = redemption_step_of(axis, days[i]);
    }
    table
}

// Window: the redemptions whose step exceeds this step. `reached` is the step of each cashflow.
fn principal_after(kinds: &[u8], amounts: &[f64], reached: &[usize; 256], step: usize) -> f64
    requires { (length kinds.now ≤ 256) × (length amounts.now ≡ length kinds.now) × (length reached.now ≡ 256) }
    ensures { result ≡ redemptions (ltb step) reached.now kinds.now amounts.now plus_zero }
{
    redeemed(kinds, amounts, |i| step < reached[i])
}

// A window's principal at each of the steps, worked out once for all entries.
pub fn window_principals(axis: Axis, leg: Leg<'_>) -> [f64; 513]
    requires { (length leg.days.now ≤ 256) × (length leg.kinds.now ≡ length leg.days.now) × (length leg.amounts.now ≡ length leg.days.now) }
    ensures { Principals (axis_in axis) (leg_in leg) axis.steps result }
{
    let reached = flow_steps(axis, leg.days);
    let mut table = [0.0; 513];
    for step in 0..axis.steps {
        table[step] = principal_after(leg.kinds, leg.amounts, &reached, step);
    }
    table
}
