// The variance of the Hull-White state over each step.

#![tactic(auto, unfolding(floats::specs::Answers::on_outcome))]

pub mod variance;
pub mod weight;
