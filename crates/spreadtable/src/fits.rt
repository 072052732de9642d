// A row of checked terms: the grid and the fit once, then a walk for each spread.
// What is lent stays in slices of its own: of a struct of `&mut`s each contract would have to say that its borrows stay.
ghost use Rattle.std.specs.Prelude.{◌≡◌, ◌+◌, ◌*◌, ◌<◌, ◌≤◌, length};
ghost use Rattle.std.specs.Float.{binary64};
ghost use Rattle.std.specs.Float.Ieee.{div};
ghost use Rattle.floats.specs.Answers.{when_finite};
ghost use Rattle.terms.specs.Numbers.{float};
ghost use Rattle.terms.specs.Curve.{curve_over, pillar_times};
ghost use Rattle.terms.specs.Market.{calls_in, model_in, market_in};
ghost use Rattle.rollback.specs.Walking.{steps_of};
ghost use Rattle.treebasedbondpricer.specs.Slices.{room_in};
ghost use Rattle.treebasedbondpricer.specs.laws.FittedIn.{fitted_over};
ghost use Rattle.spreadtable.specs.Page.{row_text};
ghost use Rattle.spreadtable.specs.laws.Writing.{appended};
ghost use Rattle.spreadtable.specs.laws.FittedOnce.{spread_cell, walk_over, walk_on};

use crate::Written;
use crate::rows::stopped_row;
use crate::walks::walked_row;
use bondevents::BondEventGrid;
use bondevents::marks::{step_marks, step_prices};
use eventgrid::grid::{event_grid, zero_grid};
use rollback::walking::{Events, Lattice};
use terms::market::{CallSchedule, Curve, HullWhite, Market};
use treebasedbondpricer::fitted::{FittedTree, fitted_tree};

// Apart from latticevalue's and spreads', as the line in latticevalue says.
// The fit, then the row. Counts, spacings and shifts have room for the steps.
fn row_over(
    w: Written,
    maturity: f64,
    steps: u32,
    events: Events<'_>,
    model: HullWhite<'_>,
    spreads: &[f64],
    curve: Curve<'_>,
    counts: &mut [usize],
    spacings: &mut [f64],
    shifts: &mut [f64],
    nodes: &mut [i32],
    probabilities: &mut [f64],
    first: &mut [f64],
    second: &mut [f64],
) -> Written
    requires spreads_bound { w.length + 16 * length spreads.now + 1 ≤ 4112 }
    requires steps_nonzero { (0 < steps) × (steps ≤ 512) × (length events.cashflows.now ≡ 513) × (length events.marks.now ≡ 513) × (length events.prices.now ≡ 1026) }
    requires counts_len { (length counts.old ≡ steps + 1) × (length spacings.old ≡ steps) × (length shifts.old ≡ steps) }
    ensures { result ≡ appended w (row_text
        (spread_cell (walk_over
        events.entry.cashflows.now
        (steps_of events.entry)
        (when_finite (div binary64 maturity (float steps)) 0 λ dt. fitted_over
        (curve_over curve.entry.times.now curve.entry.factors.now)
        (model_in model) (room_in nodes probabilities first second) steps dt)))
        spreads.now) }
{
    let fitted = fitted_tree(
        maturity,
        steps,
        model,
        curve,
        counts,
        spacings,
        shifts,
        nodes,
        probabilities,
        first,
        second,
    );
    match fitted {
        Ok(FittedTree { dt, flat }) => walked_row(
            w,
            Lattice {
                nodes,
                probabilities,
                counts,
                spacings,
                shifts,
                flat,
                dt,
            },
            events,
            spreads,
            first,
            second,
        ),
        Err(refusal) => stopped_row(w, spreads, Err(refusal)),
    }
}

// The row over a grid.
fn row_on(
    w: Written,
    grid: BondEventGrid,
    model: HullWhite<'_>,
    spreads: &[f64],
    curve: Curve<'_>,
    nodes: &mut [i32],
    probabilities: &mut [f64],
    first: &mut [f64],
    second: &mut [f64],
) -> Written
    requires spreads_bound { w.length + 16 * length spreads.now + 1 ≤ 4112 }
    requires steps_nonzero { (0 < grid.steps) × (grid.steps ≤ 512) }
    ensures { result ≡ appended w (row_text
        (spread_cell (walk_over
        grid.cashflows
        grid.calls
        (when_finite (div binary64 grid.maturity_time (float grid.steps)) 0 λ dt. fitted_over
        (curve_over curve.entry.times.now curve.entry.factors.now)
        (model_in model) (room_in nodes probabilities first second) grid.steps dt)))
        spreads.now) }
{
    let maturity = grid.maturity_time;
    let steps = grid.steps;
    let marks = step_marks(&grid.calls);
    let prices = step_prices(&grid.calls);
    let mut counts = [0usize; 513];
    let mut spacings = [0.0; 512];
    let mut shifts = [0.0; 512];
    let n = steps as usize;
    row_over(
        w,
        maturity,
        steps,
        Events {
            cashflows: &grid.cashflows,
            marks: &marks,
            prices: &prices,
        },
        model,
        spreads,
        curve,
        &mut counts[..n + 1],
        &mut spacings[..n],
        &mut shifts[..n],
        nodes,
        probabilities,
        first,
        second,
    )
}

// The grid of checked terms, then the row.
pub fn checked_row(
    w: Written,
    market: Market<'_>,
    calls: CallSchedule<'_>,
    spreads: &[f64],
    curve_times: &[f64],
    nodes: &mut [i32],
    probabilities: &mut [f64],
    first: &mut [f64],
    second: &mut [f64],
) -> Written
    requires spreads_bound { w.length + 16 * length spreads.now + 1 ≤ 4112 }
    requires le_maximum { (1 ≤ market.controls.maximum) × (market.controls.maximum ≤ 512) }
    requires days_len_bound { (length market.bond.leg.days.now ≤ 256) × (length market.bond.leg.kinds.now ≡ length market.bond.leg.days.now) × (length market.bond.leg.amounts.now ≡ length market.bond.leg.days.now) }
    requires ends_len { (length calls.ends.now ≡ length calls.starts.now) × (length calls.strikes.now ≡ length calls.starts.now) }
    requires put_ends_len { (length market.bond.puts.ends.now ≡ length market.bond.puts.starts.now) × (length market.bond.puts.strikes.now ≡ length market.bond.puts.starts.now) }
    requires curve_times_value { curve_times.now ≡ pillar_times market.settlement market.pillars.days.now }
    ensures { result ≡ appended w (row_text (spread_cell (walk_on (market_in market) (calls_in calls) (room_in nodes probabilities first second))) spreads.now) }
{
    let mut grid = zero_grid();
    let answer = event_grid(
        market.settlement,
        market.bond,
        calls,
        market.controls,
        &mut grid,
    );
    let curve = Curve {
        times: curve_times,
        factors: market.pillars.factors,
    };
    match answer {
        Ok(()) => row_on(
            w,
            grid,
            market.model,
            spreads,
            curve,
            nodes,
            probabilities,
            first,
            second,
        ),
        Err(refusal) => stopped_row(w, spreads, Err(refusal)),
    }
}
