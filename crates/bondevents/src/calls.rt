// The price of each step on one side: of calls the lowest that an entry gives there, of puts the highest.

ghost use Rattle.std.specs.Prelude.{◌≡◌, ◌≤◌, ◌<◌, length, get_or, set, Ok, OnErr};
ghost use Rattle.std.specs.Float.{nan};
ghost use Rattle.floats.specs.Answers.{follow, outcome_of};
ghost use Rattle.bondevents.specs.Calls.{none, keep, over_steps, with_entry};
ghost use Rattle.bondevents.specs.Parts.{axis_in, without_puts, entry_of, priced, in_window, over_prices, Principals};
ghost use Rattle.terms.specs.Market.{leg_in, leg_of};

use crate::axis::Axis;
use crate::principal::call_principal;
use crate::steps::call_step_of;
use crate::{Entry, Exercise, Side};
use floats::finite::tested;
use floats::{Reason, Refusal};
use terms::market::Leg;
use terms::refusing::refused_at;
use terms::time::time_from;

// Strike × principal/units, refused where there is no principal.
fn call_price(strike: f64, principal: f64, units: f64) -> Result<f64, Refusal>
    ensures { result ≡ priced strike principal units }
{
    if principal <= 0.0 {
        return refused_at(Reason::NoPrincipal, 0);
    }
    let paid = tested(strike * principal, 0)?;
    tested(paid / units, 0)
}

// Whether the step's time lies within the two times, with the tolerance.
fn in_window(axis: Axis, from: f64, to: f64, step: usize) -> bool
    requires { step ≤ 512 }
    ensures { result ≡ in_window (axis_in axis) from to step }
{
    let time = axis.maturity * step as f64 / axis.steps as f64;
    if time + 1.0e-12 >= from {
        return time <= to + 1.0e-12;
    }
    false
}

// A window over its steps; `principals` has the principal at each step.
#[tactic(auto, using(crate::proofs::Scanning::scanning), unfolding(floats::specs::Answers::outcome_of))]
fn over_window(
    side: Side,
    axis: Axis,
    from: f64,
    to: f64,
    strike: f64,
    units: f64,
    principals: &[f64; 513],
    row: &mut [Exercise; 513],
) -> Result<(), Refusal>
    ensures { outcome_of result row.new ≡ over_prices side (in_window (axis_in axis) from to) (λ step. priced strike (get_or principals.now step nan) units) axis.steps 0 row.old }
{
    for step in 0..axis.steps {
        if !in_window(axis, from, to, step) {
            continue;
        }
        let price = call_price(strike, principals[step], units)?;
        row[step] = row[step].keep(side, price);
    }
    Ok(())
}

// A discrete call or put at its step.
fn at_step(
    side: Side,
    step: usize,
    strike: f64,
    principal: f64,
    units: f64,
    row: &mut [Exercise; 513],
) -> Result<(), Refusal>
    requires { step ≤ 512 }
    ensures written { outcome_of result row.new ≡ follow (priced strike principal units) λ x. Ok (set row.old step (keep side (get_or row.old step none) x)) }
    ensures untouched { OnErr result (row.new ≡ row.old) }
{
    let price = call_price(strike, principal, units)?;
    row[step] = row[step].keep(side, price);
    Ok(())
}

// A discrete call or put: on settlement step 0, otherwise the day's step, where that is tried.
fn with_call(
    side: Side,
    axis: Axis,
    leg: Leg<'_>,
    units: f64,
    date: u32,
    strike: f64,
    row: &mut [Exercise; 513],
) -> Result<(), Refusal>
    requires { (length leg.kinds.now ≡ length leg.days.now) × (length leg.amounts.now ≡ length leg.days.now) }
    ensures written { outcome_of result row.new ≡ over_steps side (axis_in axis) (without_puts (leg_in leg) units) (entry_of date date strike) axis.steps 0 row.old }
    ensures untouched { OnErr result (row.new ≡ row.old) }
{
    let principal = call_principal(leg, date);
    if date == axis.settlement.day {
        return at_step(side, 0, strike, principal, units, row);
    }
    let step = call_step_of(axis, date);
    if step < axis.steps {
        return at_step(side, step, strike, principal, units, row);
    }
    Ok(())
}

// One entry, into the row of the entries before it. Those ending before settlement are skipped; a window finds its principals in
// the table. The row is written where it lies: to hand 513 places on by value takes longer than to fill them. Where the entry is
// refused it stays as it was.
#[tactic(auto, using(crate::proofs::Discrete::entries), unfolding(floats::specs::Answers::outcome_of))]
pub fn with_entry(
    side: Side,
    axis: Axis,
    leg: Leg<'_>,
    units: f64,
    entry: Entry,
    principals: &[f64; 513],
    row: &mut [Exercise; 513],
) -> Result<(), Refusal>
    requires kinds_len { (length leg.kinds.now ≡ length leg.days.now) × (length leg.amounts.now ≡ length leg.days.now) }
    requires principals { (entry.start ≡ entry.end → ⊥) → Principals (axis_in axis) (leg_of leg) axis.steps principals.now }
    ensures written { outcome_of result row.new ≡ with_entry side (axis_in axis) (without_puts (leg_in leg) units) (entry_of entry.start entry.end entry.strike) row.old }
    ensures untouched { OnErr result (row.new ≡ row.old) }
{
    if entry.end < axis.settlement.day {
        return Ok(());
    }
    if entry.start == entry.end {
        return with_call(side, axis, leg, units, entry.start, entry.strike, row);
    }
    let from = time_from(axis.settlement, entry.start);
    let to = time_from(axis.settlement, entry.end);
    let before = *row;
    let answer = over_window(side, axis, from, to, entry.strike, units, principals, row);
    if answer.is_err() {
        *row = before;
    }
    answer
}
