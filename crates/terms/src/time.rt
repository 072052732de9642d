// A day's time, by the day count.

ghost use Rattle.std.specs.Prelude.{◌≡◌};
ghost use Rattle.terms.specs.Numbers.{float};
ghost use Rattle.terms.specs.Times.{count_of, year_of, epoch_of, time_from, year_fraction};

use crate::{Epoch, Settlement};
use calendar::thirties::thirties;

// What is counted: the days themselves, or those of 30E/360.
#[tactic(auto, unfolding(crate::specs::Times::count_of))]
fn count_of(code: u32, day: u32) -> u32
    ensures { result ≡ count_of code day }
{
    if code < 2 { day } else { thirties(day) }
}

// What it is divided by.
fn year_of(code: u32) -> f64
    ensures { result ≡ float (year_of code) }
{
    if code == 0 { 365.0 } else { 360.0 }
}

// Settlement and its count, which serves every day.
pub fn epoch_of(settlement: Settlement) -> Epoch
    ensures { result ≡ epoch_of settlement }
{
    let day = settlement.day;
    let code = settlement.code;
    let count = count_of(code, day);
    Epoch { day, code, count }
}

// The day's count less settlement's, over the days of a year.
pub fn time_from(epoch: Epoch, day: u32) -> f64
    ensures { result ≡ time_from epoch day }
{
    let count = count_of(epoch.code, day);
    (count as f64 - epoch.count as f64) / year_of(epoch.code)
}

// The time of one day.
pub fn year_fraction(settlement: Settlement, day: u32) -> f64
    ensures { result ≡ year_fraction settlement day }
{
    time_from(epoch_of(settlement), day)
}
