// What stands on a line of a file, as it was typed.
ghost use Rattle.std.specs.Prelude.{◌≡◌};
ghost use Rattle.reportlines.specs.Typed.{Begins, typed_line, typed_word};

use bondline::bytes::until;
use bondline::lines::next_line;
use bondline::words::word_at;

// Where a line begins.
fn line_start(text: &[u8], line: usize) -> usize
    ensures { Begins text.now line result }
{
    let mut at = 0;
    for _ in 1..line {
        at = next_line(text, at);
    }
    at
}

// A line up to its comment.
fn typed_line(text: &[u8], line: usize) -> &[u8]
    ensures { result.now ≡ typed_line text.now line }
{
    let start = line_start(text, line);
    let end = until(text, start, b'\n');
    let whole = &text[start..end];
    let comment = until(whole, 0, b'#');
    &whole[..comment]
}

// A word of a line.
pub fn typed_word(text: &[u8], line: usize, n: usize) -> &[u8]
    ensures { result.now ≡ typed_word text.now line n }
{
    word_at(typed_line(text, line), n)
}
