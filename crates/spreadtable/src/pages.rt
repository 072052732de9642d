// The rows of all shifts.
// What is lent stays in slices of its own: of a struct of `&mut`s each contract would have to say that its borrows stay.
ghost use Rattle.std.specs.Prelude.{◌≡◌, ◌≤◌, length};
ghost use Rattle.terms.specs.Curve.{CurveTimes};
ghost use Rattle.terms.specs.Market.{calls_in, market_in};
ghost use Rattle.treebasedbondpricer.specs.Slices.{room_in};
ghost use Rattle.spreadtable.specs.Page.{page_text, no_page};
ghost use Rattle.spreadtable.specs.Table.{cell_at};
ghost use Rattle.spreadtable.specs.laws.Writing.{appended, empty};

use crate::Written;
use crate::shifts::shifted_row;
use crate::writing::empty;
use terms::market::{CallSchedule, Market};

// A row for each shift.
pub fn all_rows(
    market: Market<'_>,
    calls: CallSchedule<'_>,
    spreads: &[f64],
    shifts: &[f64],
    curve_times: &[f64],
    nodes: &mut [i32],
    probabilities: &mut [f64],
    first: &mut [f64],
    second: &mut [f64],
) -> Written
    requires spreads_len_bound { (length spreads.now ≤ 16) × (length shifts.now ≤ 16) }
    requires curve_times { CurveTimes market.settlement market.pillars.days.now curve_times.now }
    ensures { result ≡ appended empty (page_text (cell_at (market_in market) (calls_in calls) (room_in nodes probabilities first second)) spreads.now shifts.now) }
{
    let mut rows = empty();
    for shift in shifts {
        rows = shifted_row(
            rows,
            *shift,
            market,
            calls,
            spreads,
            curve_times,
            nodes,
            probabilities,
            first,
            second,
        );
    }
    rows
}
