// The value of a fitted tree: grid, tree and walk back.
#![tactic(auto, unfolding(floats::specs::Answers::on_outcome))]

pub mod value;
