// A row by the checks of each cell's own call, and by one fit where they are passed.
// What is lent stays in slices of its own: of a struct of `&mut`s each contract would have to say that its borrows stay.
ghost use Rattle.std.specs.Prelude.{◌≡◌, ◌+◌, ◌*◌, ◌≤◌, length};
ghost use Rattle.terms.specs.Curve.{CurveTimes};
ghost use Rattle.terms.specs.Market.{calls_in, market_in};
ghost use Rattle.treebasedbondpricer.specs.Slices.{room_in};
ghost use Rattle.spreadtable.specs.Page.{row_text};
ghost use Rattle.spreadtable.specs.laws.Writing.{appended};
ghost use Rattle.spreadtable.specs.laws.Refusing.{check_text, check_cell, single_cell};

use crate::Written;
use crate::cells::hash_cell;
use crate::fits::checked_row;
use crate::writing::append;
use entrychecks::entries::tree_checks;
use floats::Refusal;
use terms::market::{CallSchedule, Market};

// A check's number. One that passed isn't asked.
fn check_text(check: Result<(), Refusal>) -> [u8; 16]
    ensures { result ≡ check_text check }
{
    match check {
        Ok(()) => hash_cell(0),
        Err(refusal) => hash_cell(refusal.reason.number()),
    }
}

// Each cell by the checks of its own call, none of which is passed. Not by `row_of`: its closure would have to ask for the curve's times.
pub fn unchecked_row(
    w: Written,
    market: Market<'_>,
    calls: CallSchedule<'_>,
    spreads: &[f64],
    curve_times: &[f64],
) -> Written
    requires spreads_bound { w.length + 16 * length spreads.now + 1 ≤ 4112 }
    requires curve_times { CurveTimes market.settlement market.pillars.days.now curve_times.now }
    ensures { result ≡ appended w (row_text (check_cell (market_in market) (calls_in calls)) spreads.now) }
{
    let mut row = w;
    for spread in spreads {
        let spread = *spread;
        let check = tree_checks(Market { spread, ..market }, calls, curve_times);
        let cell = check_text(check);
        row = append(row, &cell);
    }
    append(row, b"\n")
}

// Each cell the value of a single call with its spread.
pub fn single_row(
    w: Written,
    market: Market<'_>,
    calls: CallSchedule<'_>,
    spreads: &[f64],
    curve_times: &[f64],
    nodes: &mut [i32],
    probabilities: &mut [f64],
    first: &mut [f64],
    second: &mut [f64],
) -> Written
    requires spreads_bound { w.length + 16 * length spreads.now + 1 ≤ 4112 }
    requires curve_times { CurveTimes market.settlement market.pillars.days.now curve_times.now }
    ensures { result ≡ appended w (row_text (single_cell (market_in market) (calls_in calls) (room_in nodes probabilities first second)) spreads.now) }
{
    let in_range = Market {
        spread: 0.0,
        ..market
    };
    let check = tree_checks(in_range, calls, curve_times);
    let Ok(()) = check else {
        return unchecked_row(w, market, calls, spreads, curve_times);
    };
    checked_row(
        w,
        in_range,
        calls,
        spreads,
        curve_times,
        nodes,
        probabilities,
        first,
        second,
    )
}
