// Day numbers and dates: day 0 is 1 January 1900, in the proleptic Gregorian calendar.

#![tactic(auto)]

pub mod dates;
pub mod lengths;
pub mod numbers;
pub mod thirties;

// The last day that has a number, 1 August 2447.
pub const LAST_DAY: u32 = 200_000;

// The years that days with a number lie in.
const FIRST_YEAR: u32 = 1900;

const LAST_YEAR: u32 = 2447;

// A year, a month from 1 and a day of the month from 1.
#[derive(Clone, Copy, Debug, PartialEq, Eq, PartialOrd, Ord)]
pub struct Date {
    pub year: u32,
    pub month: u32,
    pub day: u32,
}

// Why a date has no number.
#[derive(Clone, Copy, Debug, PartialEq, Eq)]
pub enum DateError {
    NoSuchDate,
    OutOfRange,
}
