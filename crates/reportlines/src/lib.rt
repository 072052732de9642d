// The lines of the report, the words that stand in them as they were typed, and the sentences that say what to do.
#![tactic(auto)]

pub mod lines;
pub mod sentences;
pub mod typed;
