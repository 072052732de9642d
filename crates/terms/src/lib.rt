// What a call brings: its limits, the input checks, day times and the discount curve.
#![tactic(auto, unfolding(floats::specs::Answers::on_outcome, crate::specs::Checks::on_check))]

pub mod calls;
pub mod cashflows;
pub mod counts;
pub mod curve;
pub mod fields;
pub mod limits;
pub mod lists;
pub mod market;
pub mod numbers;
pub mod pillars;
pub mod ranges;
pub mod refusing;
pub mod sigma;
pub mod time;

// The settlement day, and the day-count code by which every time from it is counted.
#[derive(Clone, Copy, Debug, PartialEq, Eq)]
pub struct Settlement {
    pub day: u32,
    pub code: u32,
}

// Settlement and its own count, from which the times of all days are worked out.
#[derive(Clone, Copy, Debug, PartialEq, Eq)]
pub struct Epoch {
    pub day: u32,
    pub code: u32,
    pub count: u32,
}
