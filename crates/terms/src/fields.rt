// The checks of single fields, whose place is 0.

ghost use Rattle.std.specs.Prelude.{◌≡◌, ◌||◌};
ghost use Rattle.terms.specs.Numbers.{float};
ghost use Rattle.terms.specs.Terms.{TimeGrid};
ghost use Rattle.terms.specs.Checks as checks;

use crate::limits::{Alpha, DayCounts, GridSettings, Spread, Units};
use crate::ranges::{no_day, not_above, not_within, out_of};
use crate::refusing::single;
use floats::{Reason, Refusal};

// 1: steps per year or maximum steps outside their range.
fn setting_wrong(yearly: u32, maximum: u32) -> bool
    ensures { result ≡ (checks.outside 1 366 yearly || checks.outside 1 512 maximum) }
{
    out_of(GridSettings::LEAST, GridSettings::PER_YEAR, yearly as usize)
        || out_of(GridSettings::LEAST, GridSettings::MAXIMUM, maximum as usize)
}

// 1: the two step settings.
pub fn settings(yearly: u32, maximum: u32) -> Result<(), Refusal>
    ensures { result ≡ checks.settings (record { per_year = yearly; maximum = maximum }) }
{
    single(Reason::Setting, setting_wrong(yearly, maximum))
}

// 33: the day-count code.
pub fn day_count(code: u32) -> Result<(), Refusal>
    ensures { result ≡ checks.day_count code }
{
    single(Reason::DayCount, DayCounts::LAST < code)
}

// 3: the settlement day.
pub fn settlement_day(day: u32) -> Result<(), Refusal>
    ensures { result ≡ checks.settlement_day day }
{
    single(Reason::Day, no_day(day))
}

// 4: units.
pub fn units_range(units: f64) -> Result<(), Refusal>
    ensures { result ≡ checks.units_range units }
{
    single(Reason::Number, not_above(Units::MOST, units))
}

// 4: a single number and its limit.
pub fn within(limit: f64, x: f64) -> Result<(), Refusal>
    ensures { result ≡ checks.within limit x }
{
    single(Reason::Number, not_within(limit, x))
}

// 4: alpha.
pub fn alpha_range(alpha: f64) -> Result<(), Refusal>
    ensures { result ≡ checks.within (float 10) alpha }
{
    within(Alpha::MOST, alpha)
}

// 4: the spread.
pub fn spread_range(spread: f64) -> Result<(), Refusal>
    ensures { result ≡ checks.within (float 1) spread }
{
    within(Spread::MOST, spread)
}
