// The lists of one kind that a call brings, gathered.

use crate::Settlement;

// Cashflows: days, kinds (0 coupon, 1 redemption) and amounts.
#[derive(Clone, Copy)]
pub struct Leg<'a> {
    pub days: &'a [u32],
    pub kinds: &'a [u8],
    pub amounts: &'a [f64],
}

// Call entries, or put entries: first days, last days and strikes.
#[derive(Clone, Copy)]
pub struct CallSchedule<'a> {
    pub starts: &'a [u32],
    pub ends: &'a [u32],
    pub strikes: &'a [f64],
}

// Sigma entries: times and sigmas.
#[derive(Clone, Copy)]
pub struct SigmaSchedule<'a> {
    pub times: &'a [f64],
    pub sigmas: &'a [f64],
}

// Pillars: days and factors.
#[derive(Clone, Copy)]
pub struct Pillars<'a> {
    pub days: &'a [u32],
    pub factors: &'a [f64],
}

// The discount curve: the pillars' times and factors.
#[derive(Clone, Copy)]
pub struct Curve<'a> {
    pub times: &'a [f64],
    pub factors: &'a [f64],
}

// The bond: cashflows, units and put entries.
#[derive(Clone, Copy)]
pub struct Bond<'a> {
    pub leg: Leg<'a>,
    pub units: f64,
    pub puts: CallSchedule<'a>,
}

// Steps per year and maximum steps.
#[derive(Clone, Copy, Debug, PartialEq, Eq)]
pub struct TimeGrid {
    pub per_year: u32,
    pub maximum: u32,
}

// The model: alpha and sigma.
#[derive(Clone, Copy)]
pub struct HullWhite<'a> {
    pub alpha: f64,
    pub sigma: SigmaSchedule<'a>,
}

// What the tree value takes, but for the call entries and the lent slices. Where a spread is sought, the target price stands in the spread's place.
#[derive(Clone, Copy)]
pub struct Market<'a> {
    pub settlement: Settlement,
    pub bond: Bond<'a>,
    pub controls: TimeGrid,
    pub model: HullWhite<'a>,
    pub spread: f64,
    pub pillars: Pillars<'a>,
}
