// The checks of the pillars.

ghost use Rattle.std.specs.Prelude.{◌≡◌, ◌≤◌, length};
ghost use Rattle.terms.specs.Market.{pillars_in};
ghost use Rattle.terms.specs.Checks.{pillar_days, factor_range, last_day, pillar_order, same_times, positive_factors};

use crate::limits::PillarEntries;
use crate::lists::last_day;
use crate::market::{Leg, Pillars};
use crate::numbers::all_within;
use crate::ranges::no_day;
use crate::refusing::refused_first;
use floats::{Reason, Refusal};

// 3: pillar days.
pub fn pillar_days(pillars: Pillars<'_>) -> Result<(), Refusal>
    requires { length pillars.days.now ≤ 256 }
    ensures { result ≡ pillar_days (pillars_in pillars) }
{
    let days = pillars.days;
    refused_first(Reason::Day, days.len(), |i| no_day(days[i]))
}

// 4: factors within ±1000.
pub fn factor_range(pillars: Pillars<'_>) -> Result<(), Refusal>
    requires { length pillars.factors.now ≤ 256 }
    ensures { result ≡ factor_range (pillars_in pillars) }
{
    all_within(PillarEntries::FACTOR, pillars.factors)
}

// 8: the first pillar not at settlement, a day not above the one before it, or the last day before the maturity of the cashflows.
pub fn pillars_to_maturity(
    settlement: u32,
    leg: Leg<'_>,
    pillars: Pillars<'_>,
) -> Result<(), Refusal>
    requires { length pillars.days.now ≤ 256 }
    ensures { result ≡ pillar_order settlement (last_day leg.entry.days.now) (pillars_in pillars) }
{
    let maturity = last_day(leg.days);
    let days = pillars.days;
    refused_first(Reason::PillarOrder, days.len(), |i| {
        if i == 0 {
            days[0] != settlement
        } else {
            days[i] <= days[i - 1] || (i == days.len() - 1 && days[i] < maturity)
        }
    })
}

// 34: two pillars at one time.
pub fn same_times(times: &[f64]) -> Result<(), Refusal>
    requires { length times.now ≤ 256 }
    ensures { result ≡ same_times times.now }
{
    refused_first(
        Reason::SameTime,
        times.len(),
        |i| 0 < i && times[i - 1] == times[i],
    )
}

// 44: a factor that isn't positive.
pub fn positive_factors(pillars: Pillars<'_>) -> Result<(), Refusal>
    requires { length pillars.factors.now ≤ 256 }
    ensures { result ≡ positive_factors (pillars_in pillars) }
{
    let factors = pillars.factors;
    refused_first(
        Reason::FactorNotPositive,
        factors.len(),
        |i| factors[i] <= 0.0,
    )
}
