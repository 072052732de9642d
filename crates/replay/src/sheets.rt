// A line of the closing sheet, kind 19: a bond number and an answer of the tree value, a value with its count or a refusal with its place.

use crate::record::Record;
use closingsheet::NumberedRefusal;
use closingsheet::line::line_of;
use treebasedbondpricer::TreeValue;

// The answer that a record holds. Its refusal may have any number.
fn answer(record: &Record) -> Result<TreeValue, NumberedRefusal> {
    if record.number(2) == 0 {
        return Ok(TreeValue {
            value: record.float(3),
            nodes: record.word(4),
        });
    }
    Err(NumberedRefusal {
        number: record.number(3),
        place: record.number(4),
    })
}

// Whether a line is the 35 bytes that a record holds.
fn is_line(line: [u8; 35], record: &Record) -> bool {
    line[..] == record.bytes[760..795]
}

pub(crate) fn same(record: &Record) -> bool {
    let filed = line_of(record.number(1), answer(record));
    let (number, place) = match filed.refusal {
        Some(refusal) => (refusal.number, refusal.place),
        None => (0, 0),
    };
    number == record.number(93) && place == record.number(94) && is_line(filed.line, record)
}
