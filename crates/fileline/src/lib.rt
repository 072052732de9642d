// The line of a file that a refusal is about.
#![tactic(auto)]

pub mod lines;
pub mod origin;
