// Text in the columns of a line.
ghost use Rattle.std.specs.Prelude.{◌≡◌};
ghost use Rattle.bondreport.specs.Columns.{blank_line, put_at, used_of};

use crate::{Line, WIDTH};

// A line with nothing in it.
pub fn blank() -> Line
    ensures { result ≡ blank_line }
{
    [b' '; WIDTH]
}

// A text from a column on; what lies beyond the line is dropped.
pub fn put(mut line: Line, at: usize, text: &[u8]) -> Line
    ensures { result ≡ put_at line at text.now }
{
    let start = at.min(WIDTH);
    let n = text.len().min(WIDTH - start);
    line[start..start + n].copy_from_slice(&text[..n]);
    line
}

// The columns up to the last that isn't blank.
#[tactic(auto, using(crate::proofs::Putting::looking))]
pub fn used(line: Line) -> usize
    ensures { result ≡ used_of 80 line }
{
    for column in (0..WIDTH).rev() {
        if line[column] != b' ' {
            return column + 1;
        }
    }
    0
}
