// The walk back over all layers.
#![tactic(auto, unfolding(floats::specs::Answers::on_outcome))]

pub mod walking;
