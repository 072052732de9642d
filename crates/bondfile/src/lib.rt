// Bond files: what their lines say, in order.
#![tactic(auto)]

use bondline::{Entry, Fault, Kind};

pub mod entries;
pub mod file;
pub mod lists;
pub mod singles;
pub mod stored;

// A line and what it says.
#[derive(Clone, Copy, Debug)]
pub struct SaidLine {
    pub line: usize,
    pub entry: Result<Entry, Fault>,
}

// An entry and its line.
#[derive(Clone, Copy, Debug)]
pub struct Found {
    pub line: usize,
    pub entry: Entry,
}

// The first thing wrong with a file: more than 65,536 bytes; a line and its fault; a line whose kind may come only once, or is beyond its limit, and the kind;
// a kind that is missing.
#[derive(Clone, Copy, Debug, PartialEq, Eq)]
pub enum FileError {
    TooLarge,
    Wrong(usize, Fault),
    Twice(usize, Kind),
    TooMany(usize, Kind),
    Missing(Kind),
}

// The single fields of a file: its settlement day, units, steps per year and at most, alpha and spread.
#[derive(Clone, Copy, Debug)]
pub struct Fields {
    pub settlement: u32,
    pub units: f64,
    pub yearly: u32,
    pub maximum: u32,
    pub alpha: f64,
    pub spread: f64,
}

#[cfg(test)]
mod tests {
    use crate::file::OfKind;
    use crate::lists::store;
    use crate::singles::first_of;
    use bondline::{Entry, Kind};

    // Line 3 is refused, line 5 says nothing.
    const TEXT: &[u8] =
        b"units 100\ncall 45365 45730 101.5\ncall soon\nunits 7\n# a note\ncall 45400 45400 102\n";

    #[test]
    fn first_of_a_kind(rt: HostRuntime) {
        let units = match first_of(TEXT, Kind::Units) {
            Entry::Units(x) => x,
            _ => 0.0,
        };
        assert_eq!(rt; units, 100.0);
        let nothing = match first_of(TEXT, Kind::Quote) {
            Entry::Blank => true,
            _ => false,
        };
        assert!(rt; nothing, "no quote");
    }

    #[test]
    fn entries_of_a_kind(rt: HostRuntime) {
        let mut last = 0;
        for found in OfKind::new(TEXT, Kind::Call) {
            last = found.line;
        }
        assert_eq!(rt; last, 6);
        let mut lines = [0; 4];
        assert_eq!(rt; store(TEXT, Kind::Call, &mut lines, |found| found.line), 2);
        assert_eq!(rt; lines, [2, 6, 0, 0]);
    }
}
