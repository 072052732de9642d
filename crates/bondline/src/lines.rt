// What a line says, and where the next one begins.
ghost use Rattle.std.specs.Prelude.{◌≡◌, ◌<◌, ◌≤◌, length};
ghost use Rattle.bondline.specs.Lines.{line_entry, line_at, next_line};

use crate::bytes::{allowed_end, until};
use crate::forms::body_entry;
use crate::{Cause, Entry, Fault};

// A line's entry: first its bytes, then its words.
#[tactic(auto, unfolding(crate::specs::Lines::line_entry))]
fn entry_of(line: &[u8]) -> Result<Entry, Fault>
    ensures { result ≡ line_entry line.now }
{
    let bad = allowed_end(line);
    if bad < line.len() {
        return Err(Fault {
            column: bad + 1,
            cause: Cause::Byte(line[bad]),
        });
    }
    let comment = until(line, 0, b'#');
    body_entry(&line[..comment])
}

// The entry of the line from an index on.
#[tactic(auto, using(crate::proofs::Lining::no_line))]
pub fn line_entry(text: &[u8], at: usize) -> Result<Entry, Fault>
    ensures { result ≡ line_entry (line_at text.now at) }
{
    if at >= text.len() {
        return Ok(Entry::Blank);
    }
    let end = until(text, at, b'\n');
    entry_of(&text[at..end])
}

// Where the next line begins.
pub fn next_line(text: &[u8], at: usize) -> usize
    ensures start { result ≡ next_line text.now at }
    ensures onward { at < length text.now → at < result }
    ensures within { at ≤ length text.now → result ≤ length text.now }
{
    let end = until(text, at, b'\n');
    if end < text.len() { end + 1 } else { end }
}
