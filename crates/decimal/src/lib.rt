// Decimal numbers as text, and the doubles nearest to them.

#![tactic(auto)]

pub mod division;
pub mod reading;
pub mod writing;

// Why a word is no number. Malformed has the column, counted from 0, of the first byte that no number has there, or the
// word's length where it ends too soon; TooLong that of the first digit too many.
#[derive(Clone, Copy, Debug, PartialEq, Eq)]
pub enum ReadError {
    Malformed(usize),
    TooLong(usize),
}

// A number to some decimals: its sign, its whole part, and what is left in units of the last decimal.
#[derive(Clone, Copy, Debug, PartialEq, Eq)]
pub struct Rounded {
    pub negative: bool,
    pub whole: u64,
    pub part: u64,
}
