// All entries of a list in list order: the calls', then the puts', and 38 once both are filled in.

ghost use Rattle.std.specs.Prelude.{◌≡◌, ℕ, ◌≤◌, ◌<◌, length, get_or, OnErr};
ghost use Rattle.floats.specs.Answers.{outcome_of};
ghost use Rattle.bondevents.specs.Calls.{over_entries, call_steps};
ghost use Rattle.bondevents.specs.Parts.{axis_in, without_puts, Principals};
ghost use Rattle.terms.specs.Market.{leg_in, leg_of, bond_in, calls_in};

use crate::joining::{joined_steps, puts_below};
use bondevents::axis::Axis;
use bondevents::calls::with_entry;
use bondevents::principal::window_principals;
use bondevents::{CallStep, Entry, Exercise, Side};
use floats::Refusal;
use terms::market::{Bond, CallSchedule, Leg};

// Entry 0 over all its steps, then entry 1.
fn over_entries(
    side: Side,
    axis: Axis,
    leg: Leg<'_>,
    units: f64,
    entries: CallSchedule<'_>,
    principals: &[f64; 513],
    row: &mut [Exercise; 513],
) -> Result<(), Refusal>
    requires kinds_len { (length leg.kinds.now ≡ length leg.days.now) × (length leg.amounts.now ≡ length leg.days.now) }
    requires ends_len { (length entries.ends.now ≡ length entries.starts.now) × (length entries.strikes.now ≡ length entries.starts.now) }
    requires by_index { (i : ℕ) → i < length entries.starts.now → (get_or entries.starts.now i 0 ≡ get_or entries.ends.now i 0 → ⊥) → Principals (axis_in axis) (leg_of leg) axis.steps principals.now }
    ensures { outcome_of result row.new ≡ over_entries side (axis_in axis) (without_puts (leg_in leg) units) entries.entry.starts.now entries.entry.ends.now entries.entry.strikes.now row.old }
{
    for at in 0..entries.starts.len() {
        let entry = Entry {
            start: entries.starts[at],
            end: entries.ends[at],
            strike: entries.strikes[at],
        };
        with_entry(side, axis, leg, units, entry, principals, row)?;
    }
    Ok(())
}

// The price of each step on one side. The principals of windows are worked out where there is a window: without one no entry looks into their table.
fn side_steps(
    side: Side,
    axis: Axis,
    leg: Leg<'_>,
    units: f64,
    entries: CallSchedule<'_>,
    row: &mut [Exercise; 513],
) -> Result<(), Refusal>
    requires days_len_bound { (length leg.days.now ≤ 256) × (length leg.kinds.now ≡ length leg.days.now) × (length leg.amounts.now ≡ length leg.days.now) }
    requires ends_len { (length entries.ends.now ≡ length entries.starts.now) × (length entries.strikes.now ≡ length entries.starts.now) }
    ensures { outcome_of result row.new ≡ over_entries side (axis_in axis) (without_puts (leg_in leg) units) entries.entry.starts.now entries.entry.ends.now entries.entry.strikes.now row.old }
{
    if entries.starts == entries.ends {
        let unused = [0.0; 513];
        return over_entries(side, axis, leg, units, entries, &unused, row);
    }
    let principals = window_principals(axis, leg);
    over_entries(side, axis, leg, units, entries, &principals, row)
}

// The steps of the grid: all calls, then all puts, then 38. Where they are refused, the steps that are lent stay as they are.
pub fn call_steps(
    axis: Axis,
    bond: Bond<'_>,
    calls: CallSchedule<'_>,
    steps: &mut [CallStep; 513],
) -> Result<(), Refusal>
    requires days_len_bound { (length bond.leg.days.now ≤ 256) × (length bond.leg.kinds.now ≡ length bond.leg.days.now) × (length bond.leg.amounts.now ≡ length bond.leg.days.now) }
    requires ends_len { (length calls.ends.now ≡ length calls.starts.now) × (length calls.strikes.now ≡ length calls.starts.now) }
    requires put_ends_len { (length bond.puts.ends.now ≡ length bond.puts.starts.now) × (length bond.puts.strikes.now ≡ length bond.puts.starts.now) }
    ensures written { outcome_of result steps.new ≡ call_steps (axis_in axis) (bond_in bond) (calls_in calls) }
    ensures untouched { OnErr result (steps.new ≡ steps.old) }
{
    let leg = bond.leg;
    let units = bond.units;
    let none = Exercise::none();
    let mut called = [none; 513];
    side_steps(Side::Call, axis, leg, units, calls, &mut called)?;
    let mut put = [none; 513];
    side_steps(Side::Put, axis, leg, units, bond.puts, &mut put)?;
    let joined = joined_steps(&called, &put);
    puts_below(&joined)?;
    *steps = joined;
    Ok(())
}
