// The input checks of each entry, in number order. A stage asks of the lists only what it needs: a type that carried all that
// the counts say would ask more of its callers.
#![tactic(auto, unfolding(floats::specs::Answers::on_outcome, terms::specs::Checks::on_check, terms::specs::Checks::first_of))]

pub mod entries;
pub mod grid_stages;
pub mod late_stages;
pub mod straight_stages;
pub mod tree_stages;
pub mod yield_stages;
