// What is worked out in whole numbers and rounded once: mul_add and sqrt, each equal to its definition bit for bit.

#![tactic(auto, unfolding(floats::specs::Answers::on_outcome))]

mod digits;
mod guess;
pub mod mul_add;
pub mod pack;
pub mod product;
mod split;
pub mod sqrt;
