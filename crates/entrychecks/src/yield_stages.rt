// The checks that the yield entries share, in stages.

ghost use Rattle.std.specs.Prelude.{◌≡◌, ◌≤◌, length};
ghost use Rattle.terms.specs.Checks.{first_of};
ghost use Rattle.terms.specs.Entries.{yield_counts, yield_days, yield_numbers};
ghost use Rattle.terms.specs.laws.Stages.{Tells};
ghost use Rattle.terms.specs.laws.TermChecks.{LegCounted};
ghost use Rattle.terms.specs.Market.{leg_in};

use floats::Refusal;
use terms::cashflows::leg_days;
use terms::counts::leg_count;
use terms::fields::{day_count, settlement_day, within};
use terms::limits::Cashflows;
use terms::market::Leg;
use terms::numbers::all_within;

// 33 and 2: day count and counts.
pub fn yield_counts(code: u32, leg: Leg<'_>) -> Result<(), Refusal>
    ensures { Tells result (first_of (yield_counts code (leg_in leg))) (LegCounted (leg_in leg)) }
{
    day_count(code)?;
    leg_count(leg)
}

// 3: days and kinds.
pub fn yield_days(settlement: u32, leg: Leg<'_>) -> Result<(), Refusal>
    requires days_len_bound { length leg.days.now ≤ 256 }
    requires kinds_len { length leg.kinds.now ≡ length leg.days.now }
    ensures { result ≡ first_of (yield_days settlement (leg_in leg)) }
{
    settlement_day(settlement)?;
    leg_days(leg)
}

// 4: the yield or the target, and the amounts.
pub fn yield_numbers(limit: f64, x: f64, leg: Leg<'_>) -> Result<(), Refusal>
    requires { length leg.amounts.now ≤ 256 }
    ensures { result ≡ first_of (yield_numbers limit x (leg_in leg)) }
{
    within(limit, x)?;
    all_within(Cashflows::AMOUNT, leg.amounts)
}
