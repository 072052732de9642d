// The event grid: for terms that are checked already, and the grid entry, which checks them.

ghost use Rattle.std.specs.Prelude.{◌≡◌, ◌≤◌, length, OnErr};
ghost use Rattle.floats.specs.Answers.{outcome_of};
ghost use Rattle.bondevents.specs.Grid.{event_grid, grid_answer};
ghost use Rattle.bondevents.specs.Parts.{no_grid, checked_grid};
ghost use Rattle.terms.specs.Market.{bond_in, calls_in, controls_of};

use crate::cashflows::paid_into;
use crate::schedule::call_steps;
use bondevents::axis::Axis;
use bondevents::steps::steps_of;
use bondevents::{BondEventGrid, CallStep, GridAnswer};
use entrychecks::entries::grid_checks;
use floats::Refusal;
use terms::Settlement;
use terms::lists::last_day;
use terms::market::{Bond, CallSchedule, TimeGrid};
use terms::time::{epoch_of, time_from};

// The grid that is all zero.
pub fn zero_grid() -> BondEventGrid
    ensures { result ≡ no_grid }
{
    let cashflows = [0.0; 513];
    let none = CallStep::new();
    let calls = [none; 513];
    BondEventGrid {
        maturity_time: 0.0,
        steps: 0,
        cashflows,
        calls,
    }
}

// The grid of terms that are checked, or 20, 27 or 38. It is written where it lies: to hand 20 KB up takes longer than to work
// them out. Where it is refused, what is lent stays as it is.
pub fn event_grid(
    settlement: Settlement,
    bond: Bond<'_>,
    calls: CallSchedule<'_>,
    controls: TimeGrid,
    grid: &mut BondEventGrid,
) -> Result<(), Refusal>
    requires le_maximum { (1 ≤ controls.maximum) × (controls.maximum ≤ 512) }
    requires days_len_bound { (length bond.leg.days.now ≤ 256) × (length bond.leg.kinds.now ≡ length bond.leg.days.now) × (length bond.leg.amounts.now ≡ length bond.leg.days.now) }
    requires ends_len { (length calls.ends.now ≡ length calls.starts.now) × (length calls.strikes.now ≡ length calls.starts.now) }
    requires put_ends_len { (length bond.puts.ends.now ≡ length bond.puts.starts.now) × (length bond.puts.strikes.now ≡ length bond.puts.starts.now) }
    ensures written { outcome_of result grid.new ≡ event_grid settlement (bond_in bond) (calls_in calls) (controls_of controls) }
    ensures untouched { OnErr result (grid.new ≡ grid.old) }
{
    let epoch = epoch_of(settlement);
    let leg = bond.leg;
    let maturity = time_from(epoch, last_day(leg.days));
    let axis = Axis {
        settlement: epoch,
        maturity,
        steps: steps_of(maturity, controls.per_year, controls.maximum),
    };
    call_steps(axis, bond, calls, &mut grid.calls)?;
    grid.maturity_time = maturity;
    grid.steps = axis.steps as u32;
    grid.cashflows = paid_into(axis, leg.days, leg.amounts);
    Ok(())
}

// The input checks, then the grid.
fn checked_grid(
    settlement: Settlement,
    bond: Bond<'_>,
    calls: CallSchedule<'_>,
    controls: TimeGrid,
    grid: &mut BondEventGrid,
) -> Result<(), Refusal>
    ensures written { outcome_of result grid.new ≡ checked_grid settlement (bond_in bond) (calls_in calls) (controls_of controls) }
    ensures untouched { OnErr result (grid.new ≡ grid.old) }
{
    grid_checks(settlement, bond, calls, controls)?;
    event_grid(settlement, bond, calls, controls, grid)
}

// The grid entry: the input checks, then the grid.
pub fn bond_event_grid(
    settlement: Settlement,
    bond: Bond<'_>,
    calls: CallSchedule<'_>,
    controls: TimeGrid,
) -> GridAnswer
    ensures { result ≡ grid_answer settlement (bond_in bond) (calls_in calls) (controls_of controls) }
{
    let mut grid = zero_grid();
    match checked_grid(settlement, bond, calls, controls, &mut grid) {
        Ok(()) => GridAnswer {
            refusal: None,
            grid,
        },
        Err(refusal) => GridAnswer {
            refusal: Some(refusal),
            grid,
        },
    }
}
