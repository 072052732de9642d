// Day numbers of 30E/360.
ghost use Rattle.std.specs.Prelude.{◌≡◌, ◌≤◌};
ghost use Rattle.calendar.specs.Calendar.{thirty_days, thirties};

use crate::dates::date_within;
use crate::{Date, LAST_DAY};

// The 30E number of a date up to 2447.
#[tactic(auto, unfolding(crate::specs::Calendar::thirty_days))]
fn thirty_days(date: Date) -> u32
    requires { (date.year ≤ 2447) × (date.month ≤ 12) }
    ensures { result ≡ thirty_days date }
{
    360 * date.year + 30 * date.month + date.day.min(30)
}

// The 30E number of a day; one past the last counts as the last.
#[tactic(auto, using(crate::proofs::Passing::thirty))]
pub fn thirties(day: u32) -> u32
    ensures { result ≡ thirties day }
{
    thirty_days(date_within(LAST_DAY.min(day)))
}
