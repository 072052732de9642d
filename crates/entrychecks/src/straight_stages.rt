// The checks of the straight value, in stages.

ghost use Rattle.std.specs.Prelude.{◌≡◌, ◌≤◌, length};
ghost use Rattle.terms.specs.Checks.{first_of};
ghost use Rattle.terms.specs.Curve.{pillar_times};
ghost use Rattle.terms.specs.Entries.{straight_counts, straight_days, straight_numbers, straight_orders};
ghost use Rattle.terms.specs.laws.Stages.{Tells};
ghost use Rattle.terms.specs.laws.TermChecks.{LegCounted, PillarsCounted};
ghost use Rattle.terms.specs.Market.{leg_in, pillars_in};

use crate::late_stages::curve_orders;
use floats::Refusal;
use terms::Settlement;
use terms::cashflows::{any_paid, leg_days};
use terms::counts::{leg_count, pillar_count};
use terms::fields::{day_count, settlement_day, spread_range};
use terms::limits::Cashflows;
use terms::market::{Leg, Pillars};
use terms::numbers::all_within;
use terms::pillars::{factor_range, pillar_days, positive_factors};

// 33 and 2: day count and counts.
pub fn straight_counts(code: u32, leg: Leg<'_>, pillars: Pillars<'_>) -> Result<(), Refusal>
    ensures { Tells result
        (first_of (straight_counts code (leg_in leg) (pillars_in pillars)))
        (LegCounted (leg_in leg) × PillarsCounted (pillars_in pillars)) }
{
    day_count(code)?;
    leg_count(leg)?;
    pillar_count(pillars)
}

// 3: days and kinds.
pub fn straight_days(settlement: u32, leg: Leg<'_>, pillars: Pillars<'_>) -> Result<(), Refusal>
    requires days_len_bound { length leg.days.now ≤ 256 }
    requires pillars_len_bound { length pillars.days.now ≤ 256 }
    requires kinds_len { length leg.kinds.now ≡ length leg.days.now }
    ensures { result ≡ first_of (straight_days settlement (leg_in leg) (pillars_in pillars)) }
{
    settlement_day(settlement)?;
    leg_days(leg)?;
    pillar_days(pillars)
}

// 4: numbers and their ranges.
pub fn straight_numbers(spread: f64, leg: Leg<'_>, pillars: Pillars<'_>) -> Result<(), Refusal>
    requires amounts_len_bound { length leg.amounts.now ≤ 256 }
    requires factors_len_bound { length pillars.factors.now ≤ 256 }
    ensures { result ≡ first_of (straight_numbers spread (leg_in leg) (pillars_in pillars)) }
{
    spread_range(spread)?;
    all_within(Cashflows::AMOUNT, leg.amounts)?;
    factor_range(pillars)
}

// 7, 8, 34 and 44: nothing paid, and the pillars.
pub fn straight_orders(
    settlement: Settlement,
    leg: Leg<'_>,
    pillars: Pillars<'_>,
    curve_times: &[f64],
) -> Result<(), Refusal>
    requires pillars_len_bound { length pillars.days.now ≤ 256 }
    requires factors_len_bound { length pillars.factors.now ≤ 256 }
    requires curve_times_value { curve_times.now ≡ pillar_times settlement pillars.days.now }
    ensures { result ≡ first_of (straight_orders settlement (leg_in leg) (pillars_in pillars)) }
{
    any_paid(settlement.day, leg)?;
    curve_orders(settlement, leg, pillars, curve_times)?;
    positive_factors(pillars)
}
