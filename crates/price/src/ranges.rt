// Refusals of what was typed, with what the field takes.
use crate::printing::{print, refuse};
use fileline::origin::{line_behind, whose};
use floats::{Reason, Refusal};
use places::Whose;
use reportlines::lines::text_line;
use std::rt::Stdout;

// What a field takes.
fn range_of(field: Whose) -> Option<&'static [u8]> {
    match field {
        Whose::Units => Some(b"units is above 0 and at most 1,000,000,000,000."),
        Whose::Alpha => Some(b"alpha lies between -10 and 10: 0.03 is 3 percent a year."),
        Whose::Spread => Some(b"spread lies between -1 and 1: 0.0085 is 85 basis points."),
        Whose::Cashflow => Some(b"An amount lies within 1,000,000,000,000 of 0."),
        Whose::Call => Some(b"A strike is above 0 and at most 1,000,000."),
        Whose::Sigma => Some(b"A sigma's time is 0 to 600 years, the sigma itself 0 to 10."),
        Whose::Pillar => Some(b"A discount factor lies within 1,000 of 0."),
        _ => None,
    }
}

// Of the bond's terms.
pub(crate) fn refuse_input(out: Stdout, text: &[u8], q: Refusal) {
    let number = q.reason.number();
    let place = q.place as usize;
    refuse(out, q, line_behind(text, number, place));
    if q.reason == Reason::Day {
        print(
            out,
            text_line(b"A day number is at most 200,000; a date has dashes: 2026-11-15."),
        );
    }
    if q.reason == Reason::Number
        && let Some(line) = range_of(whose(text, number, place))
    {
        print(out, text_line(line));
    }
}

// Of a price that was asked about.
pub(crate) fn refuse_price(out: Stdout, q: Refusal, line: usize) {
    refuse(out, q, line);
    if q.reason == Reason::Number {
        print(
            out,
            text_line(b"A price lies within 1,000,000,000,000,000 of 0."),
        );
    }
}
