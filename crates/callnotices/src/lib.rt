// Call notices: their checks, and the call list that those which stand give.
#![tactic(auto, unfolding(floats::specs::Answers::on_outcome, terms::specs::Checks::on_check, terms::specs::Checks::first_of))]

pub mod checks;
pub mod entry;
pub mod ranges;
pub mod set;
pub mod standing;

use floats::Refusal;

// At most 256 notices: series 1 to 64, version 1 to 65,535, action 0 (set) or 1 (withdraw), and the fields of a call entry.
#[derive(Clone, Copy)]
pub struct Notices<'a> {
    pub series: &'a [u32],
    pub versions: &'a [u32],
    pub actions: &'a [u32],
    pub starts: &'a [u32],
    pub ends: &'a [u32],
    pub strikes: &'a [f64],
}

impl Notices<'_> {
    pub const MOST: usize = 256;

    pub const FIRST_SERIES: u32 = 1;

    pub const LAST_SERIES: u32 = 64;

    pub const FIRST_VERSION: u32 = 1;

    pub const LAST_VERSION: u32 = 65_535;

    pub const SET: u32 = 0;

    pub const WITHDRAW: u32 = 1;
}

// The call list, zero past its last entry, or a refusal beside a list that is all zero.
#[derive(Drop)]
pub struct CallList {
    pub refusal: Option<Refusal>,
    pub count: u32,
    pub starts: [u32; 64],
    pub ends: [u32; 64],
    pub strikes: [f64; 64],
}
