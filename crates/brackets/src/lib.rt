// The bracket of bracketed_root: widening and halving, for whatever is priced.
#![tactic(auto, unfolding(floats::specs::Answers::on_outcome))]

use floats::Refusal;

pub mod brackets;

// A bracket: its ends, the objective there, and the evaluations so far.
#[derive(Clone, Copy)]
pub struct Bracket {
    pub lower: f64,
    pub upper: f64,
    pub at_lower: f64,
    pub at_upper: f64,
    pub evaluations: u32,
}

// Where one widening leads: the next bracket, or the one at which widening ends.
#[derive(Clone, Copy)]
pub enum Widened {
    Next(Bracket),
    Last(Bracket),
}

// Where one halving leads: the next bracket, or the root.
#[derive(Clone, Copy)]
pub enum Halved {
    Next(Bracket),
    Found(Root),
}

// A root, with the evaluations made.
#[derive(Clone, Copy)]
pub struct Root {
    pub at: f64,
    pub evaluations: u32,
}

// Why there is no root, with the evaluations made.
#[derive(Clone, Copy)]
pub struct NoRoot {
    pub refusal: Refusal,
    pub evaluations: u32,
}
