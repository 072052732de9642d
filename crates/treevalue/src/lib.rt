// The tree value entry: checks, value, and the lent slices zeroed.
#![tactic(auto, unfolding(floats::specs::Answers::on_outcome))]

pub mod tree;
