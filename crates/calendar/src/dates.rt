// The date of a day number.
ghost use Rattle.std.specs.Prelude.{◌≡◌, ◌+◌, ◌<◌, ◌≤◌};
ghost use Rattle.calendar.specs.Calendar.{year_length, date_of, dating};
ghost use Rattle.calendar.specs.laws.Search.{InYear, InMonth};

use crate::lengths::{month_length, year_length};
use crate::numbers::days_of_years;
use crate::{Date, FIRST_YEAR, LAST_DAY};

// The year that a day lies in and the days of it that have passed, looked for from the year that it would lie in if all
// were leap years. Here and in month_of the next length says where to stop, so there is no range to go over.
#[tactic(auto, using(crate::proofs::Passing::passing))]
fn year_of(day: u32) -> (u32, u32)
    requires { day ≤ 200000 }
    ensures { InYear day result.0 result.1 }
{
    let near = day / 366;
    let mut year = FIRST_YEAR + near;
    let mut rest = day - days_of_years(near);
    loop {
        let length = year_length(year);
        if rest < length {
            return (year, rest);
        }
        rest -= length;
        year += 1;
    }
}

// The month that a day of the year lies in, and the days of it that have passed.
#[tactic(auto, using(crate::proofs::Passing::passing))]
fn month_of(year: u32, day: u32) -> (u32, u32)
    requires { day < year_length year }
    ensures { InMonth year day result.0 result.1 }
{
    let mut month = 1;
    let mut rest = day;
    loop {
        let length = month_length(year, month);
        if rest < length {
            return (month, rest);
        }
        rest -= length;
        month += 1;
    }
}

// The date of a day that is in range.
#[tactic(auto, using(crate::specs::laws::Search::found))]
pub(crate) fn date_within(day: u32) -> Date
    requires { day ≤ 200000 }
    ensures { result ≡ date_of day }
{
    let (year, in_year) = year_of(day);
    let (month, in_month) = month_of(year, in_year);
    Date {
        year,
        month,
        day: in_month + 1,
    }
}

// The date of a day number.
#[tactic(auto, unfolding(crate::specs::Calendar::dating))]
pub fn date_of(day: u32) -> Option<Date>
    ensures { result ≡ dating day }
{
    if day > LAST_DAY {
        None
    } else {
        Some(date_within(day))
    }
}
