// A book, kind 22: at most 4 bonds. Its size, the desks and the other fields of a bond have lengths of their own, so that they need not add up.

use crate::inputs::Inputs;
use crate::lists::Few;
use crate::record::Record;
use crate::room::tried;
use bookchecks::{Book, Fields, Lists, Shared};
use bookvalue::BookAnswer;
use bookvalue::entry::book_value;

// Whether a bond's value is what the record holds of it; past the fourth it is zero.
fn same_value(record: &Record, bond: usize, value: f64) -> bool {
    if bond > 3 {
        return value == 0.0;
    }
    value == record.float(98 + bond)
}

// Whether an answer is the number, the place, the bond, the sum, the values and the counts that a record holds.
fn is_answer(answer: BookAnswer, record: &Record) -> bool {
    let values = answer.values;
    let counts = answer.counts;
    record.is_refused(answer.refusal)
        && answer.bond == record.number(96)
        && answer.sum == record.float(95)
        && (0..32).all(|bond| same_value(record, bond, values[bond]))
        && (0..8).all(|desk| counts[desk] == record.word(102 + desk))
}

// The fields of the bonds, in book order.
#[derive(Drop)]
struct Bonds {
    codes: Few<u32>,
    flows: Few<u32>,
    units: Few<f64>,
    calls: Few<u32>,
    puts: Few<u32>,
    per_year: Few<u32>,
    most: Few<u32>,
    spreads: Few<f64>,
    desks: Few<u32>,
}

impl Bonds {
    fn fields(&self) -> Fields<'_> {
        Fields {
            codes: self.codes.all(),
            cashflows: self.flows.all(),
            units: self.units.all(),
            calls: self.calls.all(),
            puts: self.puts.all(),
            per_year: self.per_year.all(),
            maximum: self.most.all(),
            spreads: self.spreads.all(),
            desks: self.desks.all(),
        }
    }
}

fn bonds_of(record: &Record) -> Bonds {
    let count = record.number(28);
    Bonds {
        codes: Few::read(record, 110, count),
        flows: Few::read(record, 114, record.number(55)),
        units: Few::read(record, 118, count),
        calls: Few::read(record, 122, count),
        puts: Few::read(record, 126, count),
        per_year: Few::read(record, 130, count),
        most: Few::read(record, 134, count),
        spreads: Few::read(record, 138, count),
        desks: Few::read(record, 142, record.number(56)),
    }
}

// Whether the inputs that a record holds are answered with what it holds.
fn answered(
    record: &Record,
    nodes: &mut [i32],
    probabilities: &mut [f64],
    first: &mut [f64],
    second: &mut [f64],
) -> bool {
    let bonds = bonds_of(record);
    let held = Inputs::read(record);
    let market = held.market();
    let book = Book {
        shared: Shared {
            day: market.settlement.day,
            model: market.model,
            pillars: market.pillars,
        },
        fields: bonds.fields(),
        lists: Lists {
            leg: market.bond.leg,
            calls: held.calls(),
            puts: market.bond.puts,
        },
    };
    let answer = book_value(book, nodes, probabilities, first, second);
    is_answer(answer, record)
}

pub(crate) fn same(record: &Record) -> bool {
    tried(record, answered)
}
