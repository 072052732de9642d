// The bond that a file says.
#![tactic(auto)]

pub mod lists;
pub mod parts;
