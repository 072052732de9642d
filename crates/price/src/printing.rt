// Lines on standard output. What cannot be written is lost without a word.
use bondreport::columns::used;
use filebond::parts::first;
use floats::Refusal;
use reportlines::lines::{count_line, refused_line};
use reportlines::sentences::what_to_do;
use std::io::Write;
use std::rt::Stdout;

pub(crate) fn say(mut out: Stdout, text: &[u8]) {
    let _ = out.write_all(text);
}

// A number in decimal digits.
pub(crate) fn say_number(mut out: Stdout, n: u64) {
    let _ = write!(out, "{n}");
}

// A line of the report, without the blanks at its end.
pub(crate) fn print(out: Stdout, line: [u8; 80]) {
    let n = used(line);
    say(out, first(&line, n));
    say(out, b"\n");
}

fn small(line: usize) -> u32 {
    if line > 65537 {
        return 0;
    }
    line as u32
}

// A label, and in place of a figure the number of the refusal.
pub(crate) fn blank_line(out: Stdout, label: &[u8], q: Refusal) {
    print(out, count_line(label, q.reason.number() as u64));
}

// A refusal of the pricer, the file's line where there is one, and what to do.
pub(crate) fn refuse(out: Stdout, q: Refusal, line: usize) {
    print(out, refused_line(q.reason.number(), small(line)));
    print(out, what_to_do(q.reason.number()));
}
