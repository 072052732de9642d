// One layer of the tree after the other, in lent slices.
#![tactic(auto, unfolding(floats::specs::Answers::on_outcome))]

pub mod grow;
pub mod layers;
