// The tree value, kind 13.

use crate::inputs::{Inputs, all_fit};
use crate::record::Record;
use crate::room::tried;
use floats::Refusal;
use treebasedbondpricer::TreeValue;

// Whether an answer is the number, the place, the value and the node count that a record holds.
fn is_answer(answer: Result<TreeValue, Refusal>, record: &Record) -> bool {
    let (refusal, value, count) = match answer {
        Ok(found) => (None, found.value, found.nodes),
        Err(refusal) => (Some(refusal), 0.0, 0),
    };
    record.is_refused(refusal) && value == record.float(95) && count == record.word(96)
}

// Whether the inputs that a record holds are answered with what it holds.
fn answered(
    record: &Record,
    nodes: &mut [i32],
    probabilities: &mut [f64],
    first: &mut [f64],
    second: &mut [f64],
) -> bool {
    let held = Inputs::read(record);
    let market = held.market();
    let calls = held.calls();
    let answer = treevalue::tree::tree_value(market, calls, nodes, probabilities, first, second);
    is_answer(answer, record)
}

pub(crate) fn same(record: &Record) -> bool {
    all_fit(record) && tried(record, answered)
}
