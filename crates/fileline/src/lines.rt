// The lines of a bond file's entries.
ghost use Rattle.std.specs.Prelude.{◌≡◌};
ghost use Rattle.fileline.specs.Lines.{line_at};

use bondfile::lists::entry_lines;

// The most entries of a list that a file may have.
const MOST_ENTRIES: usize = 256;

// The line of the entry of a kind, by its number, at a place, or 0.
pub fn line_of(text: &[u8], kind: usize, place: usize) -> usize
    ensures { result ≡ line_at text.now kind place }
{
    if place >= MOST_ENTRIES {
        return 0;
    }
    let mut lines = [0; MOST_ENTRIES];
    entry_lines(text, kind, &mut lines);
    lines[place]
}
