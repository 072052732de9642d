// The spread by sigma table, kind 21: the lists of a tree value, up to 4 spreads and 2 shifts, and the first 130 bytes of the page, which hold all of it.

use crate::inputs::{Inputs, all_fit};
use crate::lists::Few;
use crate::record::Record;
use crate::room::{all_are, tried};
use spreadtable::SpreadTable;
use spreadtable::entry::spread_table;

// Whether an answer is the number, the place, the length and the page that a record holds.
fn is_answer(answer: SpreadTable, record: &Record) -> bool {
    let page = answer.page;
    record.is_refused(answer.refusal)
        && answer.length == record.number(97)
        && page.starts_with(&record.bytes[848..978])
        && all_are(&page[130..], 0)
}

// Whether the inputs that a record holds are answered with what it holds.
fn answered(
    record: &Record,
    nodes: &mut [i32],
    probabilities: &mut [f64],
    first: &mut [f64],
    second: &mut [f64],
) -> bool {
    let held = Inputs::read(record);
    let market = held.market();
    let calls = held.calls();
    let spreads = Few::read(record, 99, record.number(98));
    let shifts = Few::read(record, 104, record.number(103));
    let answer = spread_table(
        market,
        calls,
        spreads.all(),
        shifts.all(),
        nodes,
        probabilities,
        first,
        second,
    );
    is_answer(answer, record)
}

// No list may be longer than its places.
pub(crate) fn same(record: &Record) -> bool {
    all_fit(record) && record.number(98) <= 4 && record.number(103) <= 2 && tried(record, answered)
}
