// What stands on a line of a file, as it was typed.
use crate::printing::print;
use bondline::Kind;
use bondline::bytes::{past_spaces, until};
use bondline::forms::kind_named;
use bondline::lines::next_line;
use bondline::words::{span_of, word_at};
use filebond::parts::first;
use reportlines::lines::said_line;
use reportlines::typed::typed_word;
use std::rt::Stdout;

// The line from an index on, up to its comment.
fn line_from(text: &[u8], at: usize) -> &[u8] {
    let end = until(text, at, b'\n');
    if end > text.len() {
        return text;
    }
    if at > end {
        return text;
    }
    let whole = &text[at..end];
    first(whole, until(whole, 0, b'#'))
}

// What a line says behind its first word.
fn rest_of(line: &[u8]) -> &[u8] {
    &line[past_spaces(line, span_of(line, 0).end)..]
}

// The bond's name, where the file has a line for it.
pub(crate) fn print_name(out: Stdout, text: &[u8]) {
    let mut at = 0;
    for _ in 0..text.len() {
        let line = line_from(text, at);
        if word_at(line, 0) == b"name".as_slice() {
            print(out, said_line(b"Name", rest_of(line)));
            return;
        }
        at = next_line(text, at);
    }
}

// The kind of a line by its name; blank where it has none of the names.
pub(crate) fn kind_typed(text: &[u8], line: usize) -> Kind {
    kind_named(typed_word(text, line, 0)).unwrap_or(Kind::Blank)
}
