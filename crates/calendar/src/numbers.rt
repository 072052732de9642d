// The number of a date.
ghost use Rattle.std.specs.Prelude.{◌≡◌, ◌+◌, ◌≤◌};
ghost use Rattle.calendar.specs.Calendar.{days_of_years, days_of_months, exists, number_of, dated};
ghost use Rattle.calendar.specs.laws.Days.{date, Exists};

use crate::lengths::month_length;
use crate::{DateError, FIRST_YEAR, LAST_DAY, LAST_YEAR};

// Whether there is such a date. It takes three numbers, since a Date is one that there is.
#[tactic(auto, unfolding(crate::specs::Calendar::exists))]
pub fn date_exists(year: u32, month: u32, day: u32) -> bool
    ensures { result ≡ exists (date year month day) }
{
    1 <= month && month <= 12 && 1 <= day && day <= month_length(year, month)
}

// The leap years from 1 to 1899.
const LEAPS_BEFORE: u32 = 460;

// The days of the first years from 1900.
#[tactic(auto, using(crate::specs::laws::Leaps::years_at_once))]
pub(crate) fn days_of_years(years: u32) -> u32
    requires { years ≤ 547 }
    ensures { result ≡ days_of_years years }
{
    let last = FIRST_YEAR - 1 + years;
    let leaps = last / 4 - last / 100 + last / 400 - LEAPS_BEFORE;
    365 * years + leaps
}

// The days of the first months of a year.
#[tactic(auto, using(crate::proofs::Passing::counting))]
fn days_of_months(year: u32, months: u32) -> u32
    requires { months ≤ 12 }
    ensures { result ≡ days_of_months year months }
{
    let mut days = 0;
    for i in 0..months {
        days += month_length(year, i + 1);
    }
    days
}

// The number of a date from 1900 to 2447.
#[tactic(auto, using(crate::proofs::Passing::counting))]
fn number_within(year: u32, month: u32, day: u32) -> u32
    requires { Exists year month day × (1900 ≤ year) × (year ≤ 2447) }
    ensures { result ≡ number_of (date year month day) }
{
    days_of_years(year - FIRST_YEAR) + days_of_months(year, month - 1) + (day - 1)
}

// The number of what was given as a date.
#[tactic(auto, using(crate::proofs::Passing::dating_back), unfolding(crate::specs::Calendar::dated))]
pub fn day_number(year: u32, month: u32, day: u32) -> Result<u32, DateError>
    ensures { result ≡ dated (date year month day) }
{
    if !date_exists(year, month, day) {
        return Err(DateError::NoSuchDate);
    }
    if year < FIRST_YEAR || year > LAST_YEAR {
        return Err(DateError::OutOfRange);
    }
    let number = number_within(year, month, day);
    if number > LAST_DAY {
        return Err(DateError::OutOfRange);
    }
    Ok(number)
}
