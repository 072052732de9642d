// The spread by sigma table: 45 first, then row by row; the lent slices are left all zero.
ghost use Rattle.std.specs.Prelude.{◌≡◌, ◌≤◌};
ghost use Rattle.terms.specs.Market.{calls_in, market_in};
ghost use Rattle.treebasedbondpricer.specs.Slices.{lent_in, lent_out};
ghost use Rattle.spreadtable.specs.Page.{no_table, no_page};
ghost use Rattle.spreadtable.specs.Table.{wrong_count, Tabled};
ghost use Rattle.spreadtable.specs.laws.Writing.{as_table};

use crate::pages::all_rows;
use crate::{SpreadTable, Written};
use floats::{Reason, Refusal};
use terms::curve::{pillar_times, timed_pillars};
use terms::market::{CallSchedule, Market};
use terms::ranges::out_of;
use treebasedbondpricer::zero::{zero_floats, zero_numbers};

// Whether there are no spreads or shifts, or more than 16 of either.
fn wrong_count(spreads: &[f64], shifts: &[f64]) -> bool
    ensures { result ≡ wrong_count spreads.now shifts.now }
{
    out_of(SpreadTable::FEWEST, SpreadTable::MOST, spreads.len())
        || out_of(SpreadTable::FEWEST, SpreadTable::MOST, shifts.len())
}

// 45: no page.
fn no_table() -> SpreadTable
    ensures { result ≡ no_table }
{
    let refusal = Refusal {
        reason: Reason::TableSize,
        place: 0,
    };
    SpreadTable {
        refusal: Some(refusal),
        length: 0,
        page: [0; 4112],
    }
}

// What is written, with its length.
fn as_table(w: Written) -> SpreadTable
    requires { w.length ≤ 4112 }
    ensures { result ≡ as_table w }
{
    let page = w.page;
    SpreadTable {
        refusal: None,
        length: w.length as u32,
        page,
    }
}

// A page with a row for each shift and a column for each spread. The lent slices are untouched after 45, else all zero.
pub fn spread_table(
    market: Market<'_>,
    calls: CallSchedule<'_>,
    spreads: &[f64],
    shifts: &[f64],
    nodes: &mut [i32],
    probabilities: &mut [f64],
    first_row: &mut [f64],
    second_row: &mut [f64],
) -> SpreadTable
    ensures { Tabled
        (market_in market)
        (calls_in calls)
        spreads.now
        shifts.now
        result
        (lent_in nodes probabilities first_row second_row)
        (lent_out nodes probabilities first_row second_row) }
{
    if wrong_count(spreads, shifts) {
        return no_table();
    }
    let table = pillar_times(market.settlement, market.pillars.days);
    let count = timed_pillars(market.pillars.days);
    let rows = all_rows(
        market,
        calls,
        spreads,
        shifts,
        &table[..count],
        nodes,
        probabilities,
        first_row,
        second_row,
    );
    zero_numbers(nodes);
    zero_floats(probabilities);
    zero_floats(first_row);
    zero_floats(second_row);
    as_table(rows)
}
