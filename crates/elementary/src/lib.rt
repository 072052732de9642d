// exp, exp_m1, ln and powf, each equal to its definition bit for bit; and exp of a row of numbers.

#![tactic(auto, unfolding(floats::specs::Answers::on_outcome))]

pub mod exp;
pub mod exp_m1;
pub mod exps;
pub mod ln;
pub mod powf;
