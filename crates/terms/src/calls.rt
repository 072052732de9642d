// The checks of the call entries.

ghost use Rattle.std.specs.Prelude.{◌≡◌, ◌≤◌, length};
ghost use Rattle.terms.specs.Checks.{call_days, strike_range, call_order};
ghost use Rattle.terms.specs.Market.{calls_in};

use crate::limits::CallEntries;
use crate::market::CallSchedule;
use crate::ranges::{no_day, not_above};
use crate::refusing::refused_first;
use floats::{Reason, Refusal};

// 3: start and end days.
pub fn call_days(calls: CallSchedule<'_>) -> Result<(), Refusal>
    requires starts_len_bound { length calls.starts.now ≤ 64 }
    requires ends_len { length calls.ends.now ≡ length calls.starts.now }
    ensures { result ≡ call_days (calls_in calls) }
{
    let CallSchedule { starts, ends, .. } = calls;
    refused_first(
        Reason::Day,
        starts.len(),
        |i| no_day(starts[i]) || no_day(ends[i]),
    )
}

// 4: strikes above 0 and up to 1e6.
pub fn strike_range(calls: CallSchedule<'_>) -> Result<(), Refusal>
    requires { length calls.strikes.now ≤ 64 }
    ensures { result ≡ strike_range (calls_in calls) }
{
    let strikes = calls.strikes;
    refused_first(
        Reason::Number,
        strikes.len(),
        |i| not_above(CallEntries::STRIKE, strikes[i]),
    )
}

// 5: call end before start.
pub fn call_order(calls: CallSchedule<'_>) -> Result<(), Refusal>
    requires starts_len_bound { length calls.starts.now ≤ 64 }
    requires ends_len { length calls.ends.now ≡ length calls.starts.now }
    ensures { result ≡ call_order (calls_in calls) }
{
    let CallSchedule { starts, ends, .. } = calls;
    refused_first(Reason::CallOrder, starts.len(), |i| ends[i] < starts[i])
}
