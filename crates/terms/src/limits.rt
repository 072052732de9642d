// The limits of what a call brings, each with the type that it belongs to.

// All days are whole, 0 to 200,000.
#[derive(Drop)]
pub struct Day;

impl Day {
    pub const LAST: u32 = 200_000;
}

// Day-count codes: 0 Actual/365, 1 Actual/360, 2 30E/360.
#[derive(Drop)]
pub struct DayCounts;

impl DayCounts {
    pub const LAST: u32 = 2;
}

// Steps per year 1 to 366, maximum steps 1 to 512.
#[derive(Drop)]
pub struct GridSettings;

impl GridSettings {
    pub const LEAST: usize = 1;

    pub const PER_YEAR: usize = 366;

    pub const MAXIMUM: usize = 512;
}

// 1 to 256 cashflows: kind 0 or 1, amount within ±1e12.
#[derive(Drop)]
pub struct Cashflows;

impl Cashflows {
    pub const FEWEST: usize = 1;

    pub const MOST: usize = 256;

    pub const LAST_KIND: u8 = 1;

    pub const AMOUNT: f64 = 1e12;
}

// Units, above 0 and up to 1e12.
#[derive(Drop)]
pub struct Units;

impl Units {
    pub const MOST: f64 = 1e12;
}

// 0 to 64 call entries: strike above 0 and up to 1e6.
#[derive(Drop)]
pub struct CallEntries;

impl CallEntries {
    pub const FEWEST: usize = 0;

    pub const MOST: usize = 64;

    pub const STRIKE: f64 = 1e6;
}

// Alpha within ±10.
#[derive(Drop)]
pub struct Alpha;

impl Alpha {
    pub const MOST: f64 = 10.0;
}

// 1 to 64 sigma entries: time 0 to 600, sigma 0 to 10.
#[derive(Drop)]
pub struct SigmaEntries;

impl SigmaEntries {
    pub const FEWEST: usize = 1;

    pub const MOST: usize = 64;

    pub const TIME: f64 = 600.0;

    pub const SIGMA: f64 = 10.0;
}

// 2 to 256 pillars: factor within ±1000.
#[derive(Drop)]
pub struct PillarEntries;

impl PillarEntries {
    pub const FEWEST: usize = 2;

    pub const MOST: usize = 256;

    pub const FACTOR: f64 = 1000.0;
}

// Spread within ±1.
#[derive(Drop)]
pub struct Spread;

impl Spread {
    pub const MOST: f64 = 1.0;
}

// A yield that is given within ±1e6.
#[derive(Drop)]
pub struct Yields;

impl Yields {
    pub const GIVEN: f64 = 1e6;
}

// A target within ±1e15.
#[derive(Drop)]
pub struct Target;

impl Target {
    pub const MOST: f64 = 1e15;
}
