// Spread from price: the tree is fitted once, and each spread that is tried walks back over it.
// What is lent stays in slices of its own: of a struct of `&mut`s each contract would have to say that its borrows stay.
ghost use Rattle.std.specs.Prelude.{◌≡◌, ◌+◌, ◌<◌, ◌≤◌, length};
ghost use Rattle.std.specs.Float.{binary64};
ghost use Rattle.std.specs.Float.Ieee.{div};
ghost use Rattle.terms.specs.Numbers.{float};
ghost use Rattle.terms.specs.Curve.{curve_over, pillar_times};
ghost use Rattle.terms.specs.Market.{calls_in, model_in};
ghost use Rattle.floats.specs.Answers.{when_finite};
ghost use Rattle.rollback.specs.Walking.{steps_of};
ghost use Rattle.treebasedbondpricer.specs.laws.FittedIn.{fitted_over};
ghost use Rattle.treebasedbondpricer.specs.Slices.{lent_in, lent_out, room_in};
ghost use Rattle.spreads.specs.Spreads.{Solved, quoted_of};
ghost use Rattle.spreads.specs.laws.SpreadTree.{found_over};
ghost use Rattle.spreads.specs.laws.SpreadSolved.{found_for};

use bondevents::BondEventGrid;
use bondevents::marks::{step_marks, step_prices};
use bracketedroot::solver::bracketed_root;
use brackets::brackets::counted;
use brackets::{NoRoot, Root};
use entrychecks::entries::spread_checks;
use eventgrid::grid::{event_grid, zero_grid};
use rollback::walking::{Events, Lattice};
use sought::{Priced, Sought};
use terms::curve::{pillar_times, timed_pillars};
use terms::market::{CallSchedule, Curve, HullWhite, Market};
use treebasedbondpricer::fitted::{FittedTree, fitted_tree};
use treebasedbondpricer::zero::{zero_floats, zero_numbers};

// Apart from latticevalue's and spreadtable's, as the line there says.
// Fit once, then the root. What is refused before the walk is met at the first try. Counts, spacings and shifts have room for the steps.
fn solve_over(
    maturity: f64,
    steps: u32,
    events: Events<'_>,
    model: HullWhite<'_>,
    target: f64,
    curve: Curve<'_>,
    counts: &mut [usize],
    spacings: &mut [f64],
    shifts: &mut [f64],
    nodes: &mut [i32],
    probabilities: &mut [f64],
    first: &mut [f64],
    second: &mut [f64],
) -> Result<Root, NoRoot>
    requires steps_nonzero { (0 < steps) × (steps ≤ 512) × (length events.cashflows.now ≡ 513) × (length events.marks.now ≡ 513) × (length events.prices.now ≡ 1026) }
    requires counts_len { (length counts.old ≡ steps + 1) × (length spacings.old ≡ steps) × (length shifts.old ≡ steps) }
    ensures { result ≡ found_over target
        events.entry.cashflows.now
        (steps_of events.entry)
        (when_finite (div binary64 maturity (float steps)) 0 λ dt. fitted_over
        (curve_over curve.entry.times.now curve.entry.factors.now)
        (model_in model) (room_in nodes probabilities first second) steps dt) }
{
    let fitted = fitted_tree(
        maturity,
        steps,
        model,
        curve,
        counts,
        spacings,
        shifts,
        nodes,
        probabilities,
        first,
        second,
    );
    let FittedTree { dt, flat } = counted(fitted, 1)?;
    let lattice = Lattice {
        nodes,
        probabilities,
        counts,
        spacings,
        shifts,
        flat,
        dt,
    };
    let sought = Sought {
        priced: Priced::Tree(lattice, events),
        target,
    };
    bracketed_root(
        sought,
        first,
        second,
        Sought::LOWER,
        Sought::UPPER,
        Sought::LOWEST_SPREAD,
    )
}

// The root over a grid.
fn solve_grid(
    grid: BondEventGrid,
    model: HullWhite<'_>,
    target: f64,
    curve: Curve<'_>,
    nodes: &mut [i32],
    probabilities: &mut [f64],
    first: &mut [f64],
    second: &mut [f64],
) -> Result<Root, NoRoot>
    requires { (0 < grid.steps) × (grid.steps ≤ 512) }
    ensures { result ≡ found_over target
        grid.cashflows
        grid.calls
        (when_finite (div binary64 grid.maturity_time (float grid.steps)) 0 λ dt. fitted_over
        (curve_over curve.entry.times.now curve.entry.factors.now)
        (model_in model) (room_in nodes probabilities first second) grid.steps dt) }
{
    let maturity = grid.maturity_time;
    let steps = grid.steps;
    let marks = step_marks(&grid.calls);
    let prices = step_prices(&grid.calls);
    let mut counts = [0usize; 513];
    let mut spacings = [0.0; 512];
    let mut shifts = [0.0; 512];
    let n = steps as usize;
    solve_over(
        maturity,
        steps,
        Events {
            cashflows: &grid.cashflows,
            marks: &marks,
            prices: &prices,
        },
        model,
        target,
        curve,
        &mut counts[..n + 1],
        &mut spacings[..n],
        &mut shifts[..n],
        nodes,
        probabilities,
        first,
        second,
    )
}

// The grid of checked terms, then the root.
fn checked_spread(
    market: Market<'_>,
    calls: CallSchedule<'_>,
    curve_times: &[f64],
    nodes: &mut [i32],
    probabilities: &mut [f64],
    first: &mut [f64],
    second: &mut [f64],
) -> Result<Root, NoRoot>
    requires le_maximum { (1 ≤ market.controls.maximum) × (market.controls.maximum ≤ 512) }
    requires days_len_bound { (length market.bond.leg.days.now ≤ 256) × (length market.bond.leg.kinds.now ≡ length market.bond.leg.days.now) × (length market.bond.leg.amounts.now ≡ length market.bond.leg.days.now) }
    requires ends_len { (length calls.ends.now ≡ length calls.starts.now) × (length calls.strikes.now ≡ length calls.starts.now) }
    requires put_ends_len { (length market.bond.puts.ends.now ≡ length market.bond.puts.starts.now) × (length market.bond.puts.strikes.now ≡ length market.bond.puts.starts.now) }
    requires curve_times_value { curve_times.now ≡ pillar_times market.settlement market.pillars.days.now }
    ensures { result ≡ found_for (quoted_of market.entry) (calls_in calls) (room_in nodes probabilities first second) }
{
    let mut grid = zero_grid();
    let answer = event_grid(
        market.settlement,
        market.bond,
        calls,
        market.controls,
        &mut grid,
    );
    counted(answer, 1)?;
    let curve = Curve {
        times: curve_times,
        factors: market.pillars.factors,
    };
    solve_grid(
        grid,
        market.model,
        market.spread,
        curve,
        nodes,
        probabilities,
        first,
        second,
    )
}

// The spread at which the tree value is the target, which stands in the market's spread, and the number of spreads tried. The lent slices are untouched after an input refusal, else all zero.
pub fn spread_from_price(
    market: Market<'_>,
    calls: CallSchedule<'_>,
    nodes: &mut [i32],
    probabilities: &mut [f64],
    first_row: &mut [f64],
    second_row: &mut [f64],
) -> Result<Root, NoRoot>
    ensures { Solved (quoted_of market.entry) (calls_in calls)
        result
        (lent_in nodes probabilities first_row second_row)
        (lent_out nodes probabilities first_row second_row) }
{
    let table = pillar_times(market.settlement, market.pillars.days);
    let count = timed_pillars(market.pillars.days);
    let times = &table[..count];
    let checked = spread_checks(market, calls, times);
    counted(checked, 0)?;
    let root = checked_spread(
        market,
        calls,
        times,
        nodes,
        probabilities,
        first_row,
        second_row,
    );
    zero_numbers(nodes);
    zero_floats(probabilities);
    zero_floats(first_row);
    zero_floats(second_row);
    root
}
