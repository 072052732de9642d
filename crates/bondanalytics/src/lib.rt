// Price from yield and yield from price.
#![tactic(auto, unfolding(floats::specs::Answers::on_outcome))]

pub mod yields;
