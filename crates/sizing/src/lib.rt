// How large the slices of the tree value must be.
#![tactic(auto, unfolding(floats::specs::Answers::on_outcome))]

pub mod entry;

// The length of the node slice, of the probability slice and of each row, and the nodes of the tree.
#[derive(Drop)]
pub struct Lengths {
    pub nodes: u64,
    pub probabilities: u64,
    pub row: u64,
    pub count: u64,
}
