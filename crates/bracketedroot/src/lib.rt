// bracketed_root: up to 64 widenings, then 256 halvings.
#![tactic(auto, unfolding(floats::specs::Answers::on_outcome))]

pub mod solver;
