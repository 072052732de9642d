// Spread from price, kind 14: the target stands where the spread of a tree value stands.

use crate::inputs::{Inputs, all_fit};
use crate::record::Record;
use crate::room::tried;
use brackets::{NoRoot, Root};

// Whether an answer is the number, the place, the spread and the tries that a record holds.
fn is_answer(answer: Result<Root, NoRoot>, record: &Record) -> bool {
    let (refusal, spread, tries) = match answer {
        Ok(root) => (None, root.at, root.evaluations),
        Err(none) => (Some(none.refusal), 0.0, none.evaluations),
    };
    record.is_refused(refusal) && spread == record.float(95) && tries == record.number(97)
}

// Whether the inputs that a record holds are answered with what it holds.
fn answered(
    record: &Record,
    nodes: &mut [i32],
    probabilities: &mut [f64],
    first: &mut [f64],
    second: &mut [f64],
) -> bool {
    let held = Inputs::read(record);
    let answer = spreads::spreads::spread_from_price(
        held.market(),
        held.calls(),
        nodes,
        probabilities,
        first,
        second,
    );
    is_answer(answer, record)
}

pub(crate) fn same(record: &Record) -> bool {
    all_fit(record) && tried(record, answered)
}
