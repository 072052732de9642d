// Backward induction over the layers: the walk back.
#![tactic(auto, unfolding(floats::specs::Answers::on_outcome))]

pub mod walk;
