// The lines of the report.
ghost use Rattle.std.specs.Prelude.{◌≡◌};
ghost use Rattle.bondreport.specs.Lines.{said_line, text_line, call_heading, no_calls, no_pillar, put_strike, stands_apart, strike_line, call_line, day_line, number_line, count_line, refused_line};

use bondreport::Line;
use bondreport::columns::{blank, put};
use bondreport::figures::{put_bits, put_date, put_decimals, put_whole};
use bondreport::numbers::width;

// A label, and what is said of it.
pub fn said_line(label: &[u8], text: &[u8]) -> Line
    ensures { result ≡ said_line label.now text.now }
{
    put(put(blank(), 0, label), 17, text)
}

// A sentence in a line of its own.
pub fn text_line(text: &[u8]) -> Line
    ensures { result ≡ text_line text.now }
{
    put(blank(), 17, text)
}

pub fn call_heading() -> Line
    ensures { result ≡ call_heading }
{
    said_line(
        b"Call list",
        b"from        to                 strike    exact bits",
    )
}

pub fn no_calls() -> Line
    ensures { result ≡ no_calls }
{
    said_line(b"Call list", b"no calls")
}

pub fn no_pillar() -> Line
    ensures { result ≡ no_pillar }
{
    said_line(b"Curve date", b"no pillar")
}

// The most letters of a strike that stands beside its call, and of one on a line of its own.
const MOST_BESIDE: usize = 13;

const MOST_APART: usize = 63;

// A strike as it was typed, or where it stands instead.
fn put_strike(line: Line, typed: &[u8]) -> Line
    ensures { result ≡ put_strike line typed.now }
{
    match typed.len() {
        n @ 0..=MOST_BESIDE => put(line, 54 - n, typed),
        n if n <= MOST_APART => put(line, 45, b"next line"),
        _ => put(line, 48, b"beyond"),
    }
}

// Whether a strike stands on the next line.
pub fn stands_apart(typed: &[u8]) -> bool
    ensures { result ≡ stands_apart typed.now }
{
    MOST_BESIDE < typed.len() && typed.len() <= MOST_APART
}

// A strike on a line of its own.
pub fn strike_line(typed: &[u8]) -> Line
    ensures { result ≡ strike_line typed.now }
{
    said_line(b"  strike", typed)
}

// A call's first day, last day and strike.
pub fn call_line(start: u32, end: u32, typed: &[u8], strike: f64) -> Line
    ensures { result ≡ call_line start end typed.now strike }
{
    let days = put_date(put_date(blank(), 27, start), 39, end);
    put_bits(put_strike(days, typed), 58, strike)
}

// A day.
pub fn day_line(label: &[u8], day: u32) -> Line
    ensures { result ≡ day_line label.now day }
{
    put_date(put(blank(), 0, label), 27, day)
}

// A number to some decimals, and its bits.
pub fn number_line(label: &[u8], x: f64, places: u32) -> Line
    ensures { result ≡ number_line label.now x places }
{
    let labelled = put(blank(), 0, label);
    put_bits(put_decimals(labelled, 45, x, places), 49, x)
}

// A whole number.
pub fn count_line(label: &[u8], n: u64) -> Line
    ensures { result ≡ count_line label.now n }
{
    put_whole(put(blank(), 0, label), 45, n)
}

// A refusal's number, and the line of the file that it stands for, where there is one.
#[tactic(auto, using(bondreport::proofs::Digits::few))]
pub fn refused_line(number: u32, line: u32) -> Line
    ensures { result ≡ refused_line number line }
{
    let end = 17 + width(number as u64);
    let numbered = put_whole(put(blank(), 0, b"Refused"), end, number as u64);
    if line == 0 {
        return numbered;
    }
    let last = end + 9 + width(line as u64);
    put_whole(put(numbered, end, b" at line "), last, line as u64)
}
