// The trinomial tree: what its layers and transitions are, and the transition of one node.
#![tactic(auto, unfolding(floats::specs::Answers::on_outcome))]

pub mod node;
pub mod reach;

// A node's expectation and its middle in the next layer: the rounded quotient, and the same as a node number.
#[derive(Drop)]
pub struct Middle {
    pub expectation: f64,
    pub middle: f64,
    pub node: i32,
}

// From one node to three of the next layer, with their probabilities.
#[derive(Drop)]
pub struct Transition {
    pub down: i32,
    pub middle: i32,
    pub up: i32,
    pub probability_down: f64,
    pub probability_middle: f64,
    pub probability_up: f64,
}

// A layer that is laid: its spacing and node count.
#[derive(Clone, Copy)]
pub struct NextLayer {
    pub spacing: f64,
    pub count: usize,
}

// What the nodes of a step share: spacing, decay, the new spacing, the two divisors, and the place of a refusal.
#[derive(Clone, Copy)]
pub struct Step {
    pub spacing: f64,
    pub decay: f64,
    pub new_spacing: f64,
    pub denominator: f64,
    pub scale: f64,
    pub place: u32,
}

impl Step {
    // 2^−52: a variance at or below it is none.
    pub const EPSILON: f64 = 2.220446049250313e-16;
}

// The lengths of the two lent rows.
#[derive(Clone, Copy)]
pub struct Rows {
    pub first: usize,
    pub second: usize,
}
