// The call list of notices, kind 18: at most 8 notices.

use crate::lists::Few;
use crate::record::Record;
use callnotices::entry::call_list;
use callnotices::{CallList, Notices};

// Whether a place of the list is what the record holds of it; past the eighth it is zero.
fn same_place(record: &Record, place: usize, start: u32, end: u32, strike: f64) -> bool {
    if place > 7 {
        return start == 0 && end == 0 && strike == 0.0;
    }
    start == record.number(98 + place)
        && end == record.number(106 + place)
        && strike == record.float(114 + place)
}

fn same_list(answer: CallList, record: &Record) -> bool {
    let starts = answer.starts;
    let ends = answer.ends;
    let strikes = answer.strikes;
    record.is_refused(answer.refusal)
        && answer.count == record.number(97)
        && (0..64).all(|place| same_place(
            record,
            place,
            starts[place],
            ends[place],
            strikes[place],
        ))
}

// The notices that a record holds: of each list the first `count`.
pub(crate) fn same(record: &Record) -> bool {
    let count = record.number(1);
    if count > 8 {
        return false;
    }
    let series = Few::read(record, 2, count);
    let versions = Few::read(record, 10, count);
    let actions = Few::read(record, 18, count);
    let starts = Few::read(record, 26, count);
    let ends = Few::read(record, 34, count);
    let strikes = Few::read(record, 42, count);
    let answer = call_list(Notices {
        series: series.all(),
        versions: versions.all(),
        actions: actions.all(),
        starts: starts.all(),
        ends: ends.all(),
        strikes: strikes.all(),
    });
    same_list(answer, record)
}
