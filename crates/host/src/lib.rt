// What a C caller is handed of an answer: it is written through the references that are lent, each output by its own as the C
// interface has them, and the result is the refusal number.
#![tactic(auto)]

pub mod arrays;
pub mod handing;
