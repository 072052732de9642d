// Trinomial-tree valuation of a callable bond.
#![tactic(auto, unfolding(floats::specs::Answers::on_outcome))]

pub mod fitted;
pub mod zero;

// The tree value: the root's value and the nodes of all layers.
#[derive(Clone, Copy, Debug)]
pub struct TreeValue {
    pub value: f64,
    pub nodes: u64,
}
