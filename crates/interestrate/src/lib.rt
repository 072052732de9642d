// Rate definitions, and price and derivative at a yield.
#![tactic(auto, unfolding(floats::specs::Answers::on_outcome))]

ghost use Rattle.std.specs.Prelude.{◌≡◌};
ghost use Rattle.interestrate.specs.Rates.{per_year};

use terms::Epoch;

pub mod prices;
pub mod rates;
pub mod rows;

// How often interest is compounded in a year; the number of each is its code.
#[derive(Clone, Copy)]
pub enum Frequency {
    Annual = 1,
    Semiannual = 2,
    EveryFourthMonth = 3,
    Quarterly = 4,
    Bimonthly = 6,
    Monthly = 12,
    EveryFourthWeek = 13,
    Biweekly = 26,
    Weekly = 52,
    Daily = 365,
    OtherFrequency = 999,
}

impl Frequency {
    // How many times in a year.
    pub fn per_year(self) -> u32
        ensures { result ≡ per_year self }
    {
        self as u32
    }
}

// A compounding, with its frequency where it is used.
#[derive(Clone, Copy)]
pub enum Compounding {
    Simple,
    Compounded(Frequency),
    Continuous,
    SimpleThenCompounded(Frequency),
    CompoundedThenSimple(Frequency),
}

#[derive(Clone, Copy)]
pub struct RateDefinition {
    pub compounding: Compounding,
}

// A price and its derivative by the yield.
#[derive(Clone, Copy)]
pub struct YieldPrice {
    pub price: f64,
    pub derivative: f64,
}

// A yield, with what it is compounded by and the settlement it discounts to.
#[derive(Clone, Copy)]
pub struct Yield {
    pub settlement: Epoch,
    pub compounding: Compounding,
    pub rate: f64,
}
