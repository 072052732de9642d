// Spread from price.
#![tactic(auto, unfolding(floats::specs::Answers::on_outcome))]

pub mod spreads;
