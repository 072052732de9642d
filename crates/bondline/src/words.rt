// The words of a line.
ghost use Rattle.std.specs.Prelude.{◌≡◌, ◌≤◌, ◌<◌, length, IfSome};
ghost use Rattle.bondline.specs.Words.{word_from, span_of, has_word, word_at, column_of, place_in};

use crate::Span;
use crate::bytes::{past_spaces, until};

// The word from an index on.
pub fn word_from(line: &[u8], from: usize) -> Span
    ensures span { result ≡ word_from line.now from }
    ensures order { result.start ≤ result.end }
    ensures within { from ≤ length line.now → result.end ≤ length line.now }
{
    let start = past_spaces(line, from);
    let end = until(line, start, b' ');
    Span { start, end }
}

// Where a word stands.
#[tactic(auto, using(crate::proofs::Spans::span_none, crate::proofs::Spans::span_more))]
pub fn span_of(line: &[u8], n: usize) -> Span
    ensures span { result ≡ span_of line.now n }
    ensures order { result.start ≤ result.end }
    ensures within { result.end ≤ length line.now }
{
    let mut span = word_from(line, 0);
    for _ in 0..n {
        span = word_from(line, span.end);
    }
    span
}

// Whether the line has a word.
pub fn has_word(line: &[u8], n: usize) -> bool
    ensures { result ≡ has_word line.now n }
{
    span_of(line, n).start < line.len()
}

// A word's bytes.
pub fn word_at(line: &[u8], n: usize) -> &[u8]
    ensures { result.now ≡ word_at line.now n }
{
    let span = span_of(line, n);
    &line[span.start..span.end]
}

// A word's column.
pub fn column_of(line: &[u8], n: usize) -> usize
    ensures { result ≡ column_of line.now n }
{
    span_of(line, n).start + 1
}

// A word's place among the n words of a table.
#[tactic(auto, using(crate::proofs::Spans::seek_more, crate::proofs::Spans::seek_none))]
pub fn place_in(word: &[u8], table: &[u8], n: usize) -> Option<usize>
    ensures place { result ≡ place_in word.now table.now n }
    ensures within { IfSome result (λ k. k < n) }
{
    for k in 0..n {
        if word == word_at(table, k) {
            return Some(k);
        }
    }
    None
}
