// Replays a stored sample against the proved code: reads records from standard input, works each
// out anew, and writes how many of each kind were replayed and how many differ.
#![tactic(auto)]

mod books;
mod entries;
mod grids;
mod inputs;
mod lists;
mod notices;
mod quotes;
mod record;
mod report;
mod room;
mod sheets;
mod sizes;
mod tables;
mod trees;

use crate::record::Record;
use crate::report::Tally;
use std::io::Read;
use std::rt::Stdin;

// One more record in the tally. A record with a NaN in it counts as differing.
fn add(tally: &mut Tally, record: &Record) {
    let whole = !record.any_nan();
    match record.word(0) {
        1..=11 => tally.elementary.add(whole && entries::same(record)),
        12 => tally.grid.add(whole && grids::same(record)),
        13 => tally.tree.add(whole && trees::same(record)),
        14 => tally.spread.add(whole && quotes::same(record)),
        18 => tally.notices.add(whole && notices::same(record)),
        19 => tally.sheet.add(whole && sheets::same(record)),
        20 => tally.sizes.add(whole && sizes::same(record)),
        21 => tally.table.add(whole && tables::same(record)),
        22 => tally.book.add(whole && books::same(record)),
        _ => tally.add_unknown(),
    }
}

// Reads at most 4,096 records. One that is cut short counts as unknown.
fn replayed(mut from: Stdin) -> Tally {
    let mut tally = Tally::default();
    for _ in 0..4096 {
        let mut record = Record { bytes: [0; 1784] };
        let got = from.read(&mut record.bytes).unwrap_or(0);
        if got == 0 {
            break;
        }
        if from.read_exact(&mut record.bytes[got..]).is_err() {
            tally.add_unknown();
            break;
        }
        add(&mut tally, &record);
    }
    tally
}

fn main(rt: HostRuntime) {
    let tally = replayed(rt.stdin());
    tally.write(rt.stdout());
}
