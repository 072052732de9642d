// The lines of a bond file: their words, values and forms.
#![tactic(auto)]

use calendar::DateError;

pub mod bytes;
pub mod forms;
pub mod lines;
pub mod numbers;
pub mod values;
pub mod words;

// Where a word stands in its line.
#[derive(Clone, Copy, Debug, PartialEq, Eq)]
pub struct Span {
    pub start: usize,
    pub end: usize,
}

// Why a word gives no day: where it is malformed, or what is wrong with its date.
#[derive(Clone, Copy, Debug, PartialEq, Eq)]
pub enum DayError {
    NotDay(usize),
    NotDate(DateError),
}

// Why a line is refused.
#[derive(Clone, Copy, Debug, PartialEq, Eq)]
pub enum Cause {
    Byte(u8),
    UnknownWord,
    TooFewWords,
    TooManyWords,
    NotACount,
    NotADay,
    NoDate,
    DateOutside,
    NotANumber,
    LongNumber,
    NotAKind,
    NotACompounding,
    NotAFrequency,
}

// What is wrong in a line, and at which column.
#[derive(Clone, Copy, Debug, PartialEq, Eq)]
pub struct Fault {
    pub column: usize,
    pub cause: Cause,
}

// What a line is about, by its first word. One that says nothing of the terms is blank.
#[derive(Clone, Copy, Debug, PartialEq, Eq)]
pub enum Kind {
    Blank,
    Settlement,
    Units,
    Steps,
    Alpha,
    Spread,
    Cashflow,
    Call,
    Sigma,
    Pillar,
    Yield,
    Quote,
}

// What a line says. A cashflow's kind, a compounding and a frequency are the numbers that a C caller gives too: the
// pricing functions take them so.
#[derive(Clone, Copy, Debug)]
pub enum Entry {
    Blank,
    Settlement(u32),
    Units(f64),
    Steps(u32, u32),
    Alpha(f64),
    Spread(f64),
    Cashflow(u32, u8, f64),
    Call(u32, u32, f64),
    Sigma(f64, f64),
    Pillar(u32, f64),
    Yield(f64, u32, u32),
    Quote(f64),
}
