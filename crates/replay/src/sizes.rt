// Sizing, kind 20: the lists of a tree value, and a node slice of the length that a record holds, up to 2,000.

use crate::inputs::{Inputs, all_fit};
use crate::record::Record;
use crate::room::{all_are, left};
use floats::Refusal;
use sizing::Lengths;

fn are_lengths(l: Lengths, record: &Record) -> bool {
    l.nodes == record.word(97)
        && l.probabilities == record.word(98)
        && l.row == record.word(99)
        && l.count == record.word(100)
}

// Whether an answer is the number, the place and the lengths that a record holds.
fn is_answer(answer: Result<Lengths, Refusal>, record: &Record) -> bool {
    match answer {
        Ok(l) => record.is_refused(None) && are_lengths(l, record),
        Err(refusal) => record.is_refused(Some(refusal)) && record.word(100) == 0,
    }
}

// Whether the inputs that a record holds are answered with what it holds.
fn answered(record: &Record, nodes: &mut [i32]) -> bool {
    let held = Inputs::read(record);
    let answer = sizing::entry::sizes(held.market(), held.calls(), nodes);
    is_answer(answer, record)
}

pub(crate) fn same(record: &Record) -> bool {
    let places = record.number(89) as usize;
    if places > 2000 || !all_fit(record) {
        return false;
    }
    let mut nodes = [7i32; 2000];
    let lent = &mut nodes[..places];
    answered(record, lent) && all_are(lent, i32::from(left(record.number(93))))
}
