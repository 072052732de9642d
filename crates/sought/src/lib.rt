// What bracketed_root evaluates: a yield's price or a spread's tree value, less the target.
#![tactic(auto, unfolding(floats::specs::Answers::on_outcome))]

use interestrate::RateDefinition;
use rollback::walking::{Events, Lattice};
use terms::Epoch;
use terms::market::Leg;

pub mod objectives;

// What is priced at a tried argument: cashflows at a yield, or a fitted tree at a spread.
#[derive(Clone, Copy)]
pub enum Priced<'a> {
    Cashflows(Epoch, Leg<'a>, RateDefinition),
    Tree(Lattice<'a>, Events<'a>),
}

// What the solver looks for: where what is priced is worth the target.
#[derive(Clone, Copy)]
pub struct Sought<'a> {
    pub priced: Priced<'a>,
    pub target: f64,
}

impl Sought<'_> {
    // The ends of the first bracket, of a yield and of a spread.
    pub const LOWER: f64 = -0.05;

    pub const UPPER: f64 = 0.1;

    // The lowest spread that is tried.
    pub const LOWEST_SPREAD: f64 = -1.0;
}
