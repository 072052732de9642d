// The lines of a file, and the entries of a kind among them.
ghost use Rattle.std.specs.Prelude.{◌≡◌, ◌+◌, ◌≤◌, ◌<◌, length, All};
ghost use Rattle.bondfile.specs.Entries.{kind_of};
ghost use Rattle.bondfile.specs.File.{entries_from, of_kind};
ghost use Rattle.bondfile.specs.Storing.{NextOf};

use crate::entries::{kind_number, number_of};
use crate::{Found, SaidLine};
use bondline::lines::{line_entry, next_line};
use bondline::{Entry, Fault, Kind};

// The lines of a file from an index on, with the number of the line that begins there.
#[derive(Drop)]
pub struct Lines<'a> {
    text: &'a [u8],
    at: usize,
    line: usize,
    ghost order: { line ≤ at + 1 },
    ghost within: { at ≤ length text.now },
}

impl<'a> Lines<'a> {
    ghost use Rattle.bondfile.specs.File.{entries_of};
    ghost use Rattle.bondfile.specs.Walks.{lines_left};

    pub fn new(text: &'a [u8]) -> Lines<'a>
        ensures { lines_left result ≡ entries_of text.now }
    {
        Lines {
            text,
            at: 0,
            line: 1,
        }
    }
}

impl<'a> Iterator for Lines<'a> {
    ghost use Rattle.std.specs.Iterator.{YieldsFirstBy, item_count};
    ghost use Rattle.bondfile.specs.Walks.{lines_left, numbered_line};

    type Item = (usize, Result<Entry, Fault>);

    ghost next_gives = { YieldsFirstBy numbered_line lines_left };

    ghost remaining = { item_count lines_left };

    #[tactic(auto, using(crate::proofs::Walking::walking))]
    fn next(&mut self) -> Option<(usize, Result<Entry, Fault>)> {
        if self.at >= self.text.len() {
            return None;
        }
        let line = self.line;
        let said = line_entry(self.text, self.at);
        self.at = next_line(self.text, self.at);
        self.line = line + 1;
        Some((line, said))
    }
}

// The next entry of a kind by its number, from an index on at which a line of this number begins; and where the line after it
// begins. A refused line has the number 12.
#[tactic(auto, using(crate::proofs::Walking::walking), unfolding(crate::specs::File::of_kind))]
pub fn next_entry(
    text: &[u8],
    kind: usize,
    mut at: usize,
    mut line: usize,
) -> Option<(SaidLine, usize)>
    requires { (line ≤ at + 1) × (at ≤ length text.now) }
    ensures { NextOf text.now kind at line result }
{
    while at < text.len() {
        let entry = line_entry(text, at);
        let next = next_line(text, at);
        if kind_number(entry) == kind {
            return Some((SaidLine { line, entry }, next));
        }
        at = next;
        line += 1;
    }
    None
}

// The entries of a kind by its number, from an index on, in the order of their lines, with the number of the line that begins
// there.
#[derive(Drop)]
pub struct OfNumber<'a> {
    text: &'a [u8],
    kind: usize,
    at: usize,
    line: usize,
    ghost order: { line ≤ at + 1 },
    ghost within: { at ≤ length text.now },
}

impl<'a> OfNumber<'a> {
    ghost use Rattle.bondfile.specs.File.{entries_of};
    ghost use Rattle.bondfile.specs.Walks.{said_left};

    pub fn new(text: &'a [u8], kind: usize) -> OfNumber<'a>
        ensures { said_left result ≡ of_kind kind (entries_of text.now) }
    {
        OfNumber::starting(text, kind, 0, 1)
    }

    // From an index on at which a line of this number begins.
    pub fn starting(text: &'a [u8], kind: usize, at: usize, line: usize) -> OfNumber<'a>
        requires { (line ≤ at + 1) × (at ≤ length text.now) }
        ensures { said_left result ≡ of_kind kind (entries_from text.now at line) }
    {
        OfNumber {
            text,
            kind,
            at,
            line,
        }
    }
}

impl<'a> Iterator for OfNumber<'a> {
    ghost use Rattle.std.specs.Iterator.{YieldsFirstBy, item_count};
    ghost use Rattle.bondfile.specs.Walks.{said_left, numbered_said};

    type Item = SaidLine;

    ghost next_gives = { YieldsFirstBy numbered_said said_left };

    ghost remaining = { item_count said_left };

    fn next(&mut self) -> Option<SaidLine> {
        let (found, next) = next_entry(self.text, self.kind, self.at, self.line)?;
        self.at = next;
        self.line = found.line + 1;
        Some(found)
    }
}

// The entries of a kind, in the order of their lines: none is a refused line, whose number is 12.
#[derive(Drop)]
pub struct OfKind<'a> {
    said: OfNumber<'a>,
    ghost entries: { All (λ e. kind_of e.entry < 12) (of_kind said.kind (entries_from said.text.now said.at said.line)) },
}

impl<'a> OfKind<'a> {
    ghost use Rattle.bondfile.specs.Entries.{number_of};
    ghost use Rattle.bondfile.specs.File.{entries_of};
    ghost use Rattle.bondfile.specs.Walks.{found_left};

    pub fn new(text: &'a [u8], kind: Kind) -> OfKind<'a>
        ensures { found_left result ≡ of_kind (number_of kind) (entries_of text.now) }
    {
        OfKind {
            said: OfNumber::new(text, number_of(kind)),
        }
    }
}

impl<'a> Iterator for OfKind<'a> {
    ghost use Rattle.std.specs.Iterator.{YieldsFirstBy, item_count};
    ghost use Rattle.bondfile.specs.Walks.{found_left, numbered_found};

    type Item = Found;

    ghost next_gives = { YieldsFirstBy numbered_found found_left };

    ghost remaining = { item_count found_left };

    fn next(&mut self) -> Option<Found> {
        let said = self.said.next()?;
        match said.entry {
            Ok(entry) => Some(Found {
                line: said.line,
                entry,
            }),
            Err(_) => None,
        }
    }
}
