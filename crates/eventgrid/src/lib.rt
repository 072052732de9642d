// bond_event_grid: cashflows and calls on the grid, and the grid entry.
#![tactic(auto, unfolding(floats::specs::Answers::on_outcome, floats::specs::Answers::outcome_of, terms::specs::Checks::on_check, bondevents::specs::Parts::checked_grid))]

pub mod cashflows;
pub mod grid;
mod joining;
pub mod schedule;
