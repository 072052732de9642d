// Refusal 3: settlement, cashflows, calls, pillars.
ghost use Rattle.std.specs.Prelude.{◌≡◌};
ghost use Rattle.places.specs.Places.{cashflow_day_wrong, call_day_wrong, whose_day};

use crate::Whose;
use terms::limits::{Cashflows, Day};
use terms::market::{CallSchedule, Leg};

// A cashflow's day is none, or falls, or its kind is none.
fn cashflow_day_wrong(place: usize, days: &[u32], kinds: &[u8]) -> bool
    ensures { result ≡ cashflow_day_wrong place days.now kinds.now }
{
    if days.len() <= place {
        return false;
    }
    if kinds.len() <= place {
        return false;
    }
    if Day::LAST < days[place] {
        return true;
    }
    if Cashflows::LAST_KIND < kinds[place] {
        return true;
    }
    if 0 < place {
        return days[place] < days[place - 1];
    }
    false
}

// A call's start or end is no day.
fn call_day_wrong(place: usize, starts: &[u32], ends: &[u32]) -> bool
    ensures { result ≡ call_day_wrong place starts.now ends.now }
{
    if starts.len() <= place {
        return false;
    }
    if ends.len() <= place {
        return false;
    }
    if Day::LAST < starts[place] {
        return true;
    }
    Day::LAST < ends[place]
}

// Whose day it is.
pub fn whose_day(place: usize, settlement: u32, leg: Leg<'_>, calls: CallSchedule<'_>) -> Whose
    ensures { result ≡ whose_day place settlement leg.entry.days.now leg.entry.kinds.now calls.entry.starts.now calls.entry.ends.now }
{
    if Day::LAST < settlement {
        return Whose::Settlement;
    }
    if cashflow_day_wrong(place, leg.days, leg.kinds) {
        return Whose::Cashflow;
    }
    if call_day_wrong(place, calls.starts, calls.ends) {
        return Whose::Call;
    }
    Whose::Pillar
}
