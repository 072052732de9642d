// Why a bond file isn't read: a plain sentence or two for each cause.
use crate::printing::{print, say, say_number};
use crate::typed::kind_typed;
use bondfile::FileError;
use bondline::{Cause, Fault, Kind};
use reportlines::lines::text_line;
use std::rt::Stdout;

fn at_line(out: Stdout, line: usize) {
    say(out, b"Refused          line ");
    say_number(out, line as u64);
}

fn say_byte(out: Stdout, byte: u8) {
    match byte {
        b'\t' => {
            print(out, text_line(b"A tab stands here (byte 9): type spaces."));
            return;
        }
        b'\r' => {
            print(
                out,
                text_line(b"The line ends with a CR (byte 13). Run: dos2unix FILE"),
            );
            return;
        }
        0xef => print(
            out,
            text_line(b"A byte order mark starts with byte 239. Run: dos2unix FILE"),
        ),
        _ => {}
    }
    say(out, b"                 Byte ");
    say_number(out, byte as u64);
    if byte > b'~' {
        say(
            out,
            b" stands here: such letters may stand in comments alone.\n",
        );
        return;
    }
    say(
        out,
        b" stands here: type plain letters, digits and signs.\n",
    );
}

// What a line of a kind takes.
fn values_of(kind: Kind) -> &'static [u8] {
    match kind {
        Kind::Settlement => b"settlement takes a day: settlement 2026-11-17",
        Kind::Units => b"units takes a number: units 100",
        Kind::Steps => b"steps takes two counts, a year and at most: steps 12 512",
        Kind::Alpha => b"alpha takes a number: alpha 0.03",
        Kind::Spread => b"spread takes a number: spread 0.0085",
        Kind::Cashflow => b"cashflow takes a day, coupon or redemption, and an amount.",
        Kind::Call => b"call takes two days and a strike, as 2029-11-15 2029-11-15 102",
        Kind::Sigma => b"sigma takes a time in years and a volatility: sigma 0 0.0092",
        Kind::Pillar => b"pillar takes a day and a factor: pillar 2027-11-17 0.9662",
        Kind::Yield => b"yield takes a price, a compounding and a frequency.",
        _ => b"quote takes a price: quote 99.90",
    }
}

fn say_words(out: Stdout) {
    print(
        out,
        text_line(b"No line starts with this word. The names are: settlement,"),
    );
    print(
        out,
        text_line(b"units, steps, alpha, spread, cashflow, call, sigma, pillar,"),
    );
    print(
        out,
        text_line(b"yield, quote, name; a comment starts with #."),
    );
}

// Why a value of a line isn't read.
fn reason_of(cause: Cause) -> Option<&'static [u8]> {
    match cause {
        Cause::NotACount => Some(b"Type a whole number here: digits only, nine at the most."),
        Cause::NotADay => Some(b"Type a date here, such as 2026-11-15, or a day number."),
        Cause::NoDate => Some(b"There is no such date: look at its month and its day."),
        Cause::DateOutside => Some(b"Dates go from 1900-01-01 to 2447-08-01: look at the year."),
        Cause::NotANumber => Some(b"Type a number here, such as 5, 0.0125 or -0.5."),
        Cause::LongNumber => Some(b"This digit is one too many: 17 in all, 22 behind the point."),
        Cause::NotAKind => Some(b"Type coupon or redemption here."),
        Cause::NotACompounding => Some(b"This compounding is not known: the README has the five."),
        Cause::NotAFrequency => Some(b"This frequency is not known: the README has the eleven."),
        _ => None,
    }
}

fn say_cause(out: Stdout, cause: Cause, kind: Kind) {
    match cause {
        Cause::Byte(b) => say_byte(out, b),
        Cause::UnknownWord => say_words(out),
        Cause::TooFewWords => {
            print(out, text_line(b"This line has too few values."));
            print(out, text_line(values_of(kind)))
        }
        Cause::TooManyWords => {
            print(
                out,
                text_line(b"This line has too many values; a comment starts with #."),
            );
            print(
                out,
                text_line(b"Spaces separate values: for 2 000 000 type 2000000."),
            )
        }
        _ => {
            if let Some(line) = reason_of(cause) {
                print(out, text_line(line));
            }
        }
    }
}

fn wrong(out: Stdout, text: &[u8], line: usize, fault: Fault) {
    let cause = fault.cause;
    at_line(out, line);
    say(out, b", column ");
    say_number(out, fault.column as u64);
    say(out, b"\n");
    say_cause(out, cause, kind_typed(text, line));
}

// The name of a line of a kind.
fn name_of(kind: Kind) -> &'static [u8] {
    match kind {
        Kind::Settlement => b"settlement",
        Kind::Units => b"units",
        Kind::Steps => b"steps",
        Kind::Alpha => b"alpha",
        Kind::Spread => b"spread",
        Kind::Cashflow => b"cashflow",
        Kind::Call => b"call",
        Kind::Sigma => b"sigma",
        Kind::Pillar => b"pillar",
        Kind::Yield => b"yield",
        _ => b"quote",
    }
}

fn twice(out: Stdout, line: usize, kind: Kind) {
    at_line(out, line);
    say(out, b"\n                 A second line for ");
    say(out, name_of(kind));
    say(out, b": keep the one that is right.\n");
}

// At most 256 cashflows and pillars, 64 calls and sigma entries.
fn too_many(out: Stdout, line: usize, kind: Kind) {
    at_line(out, line);
    say(out, b"\n                 One ");
    say(out, name_of(kind));
    if kind == Kind::Cashflow || kind == Kind::Pillar {
        say(out, b" too many: 256 are the most.\n");
        return;
    }
    say(out, b" too many: 64 are the most.\n");
}

fn missing(out: Stdout, kind: Kind) {
    say(
        out,
        b"Refused          the file as a whole\n                 No line for ",
    );
    say(out, name_of(kind));
    say(out, b": add one.\n");
}

fn too_large(out: Stdout) {
    say(
        out,
        b"Refused          the file as a whole\n                 The file is larger than 65,536 bytes.\n",
    );
}

// What is wrong with a file.
pub(crate) fn say_error(out: Stdout, text: &[u8], error: FileError) {
    match error {
        FileError::TooLarge => too_large(out),
        FileError::Wrong(line, fault) => wrong(out, text, line, fault),
        FileError::Twice(line, kind) => twice(out, line, kind),
        FileError::TooMany(line, kind) => too_many(out, line, kind),
        FileError::Missing(kind) => missing(out, kind),
    }
}
