// All layers of the tree and its transitions, curved or flat.
#![tactic(auto, unfolding(floats::specs::Answers::on_outcome))]

pub mod curved;
pub mod flat;
pub mod transitions;
