// The first thing wrong with a file.
#![tactic(auto)]

pub mod check;
