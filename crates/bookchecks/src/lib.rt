// A book of bonds: what each of them holds, and the input checks of all.
#![tactic(auto, unfolding(floats::specs::Answers::on_outcome, terms::specs::Checks::on_check, terms::specs::Checks::first_of))]

use floats::Refusal;
use terms::market::{CallSchedule, HullWhite, Leg, Pillars};

pub mod checks;
pub mod cut;
pub mod desks;
pub mod holdings;
pub mod naming;
pub mod parts;

// What the bonds of a book share: one settlement day, curve, sigma schedule and alpha.
#[derive(Clone, Copy)]
pub struct Shared<'a> {
    pub day: u32,
    pub model: HullWhite<'a>,
    pub pillars: Pillars<'a>,
}

// What comes with each bond, a place for each in every list. The size of the book is the number of cashflow counts.
#[derive(Clone, Copy)]
pub struct Fields<'a> {
    pub codes: &'a [u32],
    pub cashflows: &'a [u32],
    pub units: &'a [f64],
    pub calls: &'a [u32],
    pub puts: &'a [u32],
    pub per_year: &'a [u32],
    pub maximum: &'a [u32],
    pub spreads: &'a [f64],
    pub desks: &'a [u32],
}

// The entries of all bonds, one bond's after the other's.
#[derive(Clone, Copy)]
pub struct Lists<'a> {
    pub leg: Leg<'a>,
    pub calls: CallSchedule<'a>,
    pub puts: CallSchedule<'a>,
}

// At most 32 bonds, each of a desk 0 to 7.
#[derive(Clone, Copy)]
pub struct Book<'a> {
    pub shared: Shared<'a>,
    pub fields: Fields<'a>,
    pub lists: Lists<'a>,
}

impl Book<'_> {
    pub const MOST: usize = 32;

    pub const LAST_DESK: u32 = 7;
}

// A bond's entries in a list that holds those of the whole book: where they begin, and how many they are.
#[derive(Clone, Copy)]
pub struct Part {
    pub from: usize,
    pub count: usize,
}

// What the book's fields say of one bond, whether it is the last, whether its code or a step setting is missing, and whether its fields don't add up.
// Flags and no options: a missing number is 0 to the checks of numbers, and each flag is asked at a position of its own among them.
#[derive(Clone, Copy)]
pub struct Holding {
    pub code: u32,
    pub units: f64,
    pub yearly: u32,
    pub maximum: u32,
    pub spread: f64,
    pub desk: u32,
    pub cashflows: Part,
    pub calls: Part,
    pub puts: Part,
    pub last: bool,
    pub unset: bool,
    pub amiss: bool,
}

// The lengths of three parallel lists.
#[derive(Drop)]
pub struct Lengths {
    pub one: usize,
    pub two: usize,
    pub three: usize,
}

// The first refused bond, and its refusal.
#[derive(Clone, Copy, Debug, PartialEq, Eq)]
pub struct RefusedBond {
    pub bond: u32,
    pub refusal: Refusal,
}
