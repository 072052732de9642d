// A book in one go: each bond's value, their sum and each desk's node count, all or none.
#![tactic(auto, unfolding(floats::specs::Answers::on_outcome))]

use floats::Refusal;

pub mod answers;
pub mod desks;
pub mod entry;
pub mod values;

// Each bond's value and node count in its place, zero past the size: two arrays, as C takes the values.
#[derive(Drop)]
pub struct Valued {
    pub values: [f64; 32],
    pub counts: [u64; 32],
}

// The answer: each value, their sum in book order and each desk's node count, with bond 0; or the refused bond with its refusal, and no values.
// It is handed to C whole, with zeros beside a refusal.
#[derive(Drop)]
pub struct BookAnswer {
    pub refusal: Option<Refusal>,
    pub bond: u32,
    pub values: [f64; 32],
    pub sum: f64,
    pub counts: [u64; 8],
}
