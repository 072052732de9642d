// The tree value entry: the terms are checked, the grid is built, then the tree; the lent slices are left all zero.

ghost use Rattle.std.specs.Prelude.{◌≡◌, ◌≤◌, length};
ghost use Rattle.terms.specs.Curve.{pillar_times};
ghost use Rattle.terms.specs.Market.{calls_in, market_in};
ghost use Rattle.treebasedbondpricer.specs.Entry.{Entered};
ghost use Rattle.treebasedbondpricer.specs.laws.Entered.{value_on};
ghost use Rattle.treebasedbondpricer.specs.Slices.{lent_in, lent_out, room_in};

use entrychecks::entries::tree_checks;
use eventgrid::grid::{event_grid, zero_grid};
use floats::Refusal;
use latticevalue::value::lattice_value;
use terms::curve::{pillar_times, timed_pillars};
use terms::market::{CallSchedule, Curve, Market};
use treebasedbondpricer::TreeValue;
use treebasedbondpricer::zero::{zero_floats, zero_numbers};

// The grid of checked terms, then the tree.
pub fn checked_value(
    market: Market<'_>,
    calls: CallSchedule<'_>,
    curve_times: &[f64],
    nodes: &mut [i32],
    probabilities: &mut [f64],
    first: &mut [f64],
    second: &mut [f64],
) -> Result<TreeValue, Refusal>
    requires le_maximum { (1 ≤ market.controls.maximum) × (market.controls.maximum ≤ 512) }
    requires days_len_bound { (length market.bond.leg.days.now ≤ 256) × (length market.bond.leg.kinds.now ≡ length market.bond.leg.days.now) × (length market.bond.leg.amounts.now ≡ length market.bond.leg.days.now) }
    requires ends_len { (length calls.ends.now ≡ length calls.starts.now) × (length calls.strikes.now ≡ length calls.starts.now) }
    requires put_ends_len { (length market.bond.puts.ends.now ≡ length market.bond.puts.starts.now) × (length market.bond.puts.strikes.now ≡ length market.bond.puts.starts.now) }
    requires curve_times_value { curve_times.now ≡ pillar_times market.settlement market.pillars.days.now }
    ensures { result ≡ value_on (market_in market) (calls_in calls) (room_in nodes probabilities first second) }
{
    let mut grid = zero_grid();
    event_grid(
        market.settlement,
        market.bond,
        calls,
        market.controls,
        &mut grid,
    )?;
    let curve = Curve {
        times: curve_times,
        factors: market.pillars.factors,
    };
    lattice_value(
        grid,
        market.model,
        market.spread,
        curve,
        nodes,
        probabilities,
        first,
        second,
    )
}

// What the bond is worth with its calls, and the nodes of the tree. The lent slices are untouched after an input refusal, else all zero.
pub fn tree_value(
    market: Market<'_>,
    calls: CallSchedule<'_>,
    nodes: &mut [i32],
    probabilities: &mut [f64],
    first_row: &mut [f64],
    second_row: &mut [f64],
) -> Result<TreeValue, Refusal>
    ensures { Entered (market_in market) (calls_in calls) result (lent_in nodes probabilities first_row second_row) (lent_out nodes probabilities first_row second_row) }
{
    let table = pillar_times(market.settlement, market.pillars.days);
    let count = timed_pillars(market.pillars.days);
    tree_checks(market, calls, &table[..count])?;
    let value = checked_value(
        market,
        calls,
        &table[..count],
        nodes,
        probabilities,
        first_row,
        second_row,
    );
    zero_numbers(nodes);
    zero_floats(probabilities);
    zero_floats(first_row);
    zero_floats(second_row);
    value
}
