// Forward induction over the layers: the fit to the curve.
#![tactic(auto, unfolding(floats::specs::Answers::on_outcome))]

pub mod exps;
pub mod fit;
pub mod fitting;
pub mod layer;
pub mod rows;
