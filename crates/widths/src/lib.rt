// How wide the layers of the tree are: from variances and middle nodes alone, in one node slice.
#![tactic(auto, unfolding(floats::specs::Answers::on_outcome))]

pub mod layer;
pub mod tree;
pub mod widen;
