// The checks of the call fields of set notices, as calls are checked: 3, 4 and 5. A withdrawal's call fields aren't read.

ghost use Rattle.std.specs.Prelude.{◌≡◌, ◌≤◌, length};
ghost use Rattle.callnotices.specs.Checks.{set_days, set_strikes, set_order};

use crate::Notices;
use floats::{Reason, Refusal};
use terms::limits::CallEntries;
use terms::ranges::{no_day, not_above};
use terms::refusing::refused_first;

// 3: start and end days.
pub fn set_days(notices: Notices<'_>) -> Result<(), Refusal>
    requires actions_len_bound { length notices.actions.now ≤ 256 }
    requires starts_len { length notices.starts.now ≡ length notices.actions.now }
    requires ends_len { length notices.ends.now ≡ length notices.actions.now }
    ensures { result ≡ set_days notices.entry.actions.now notices.entry.starts.now notices.entry.ends.now }
{
    refused_first(Reason::Day, notices.actions.len(), |i| {
        notices.actions[i] == Notices::SET && (no_day(notices.starts[i]) || no_day(notices.ends[i]))
    })
}

// 4: strikes above 0 and up to 1e6.
pub fn set_strikes(notices: Notices<'_>) -> Result<(), Refusal>
    requires actions_len_bound { length notices.actions.now ≤ 256 }
    requires strikes_len { length notices.strikes.now ≡ length notices.actions.now }
    ensures { result ≡ set_strikes notices.entry.actions.now notices.entry.strikes.now }
{
    refused_first(Reason::Number, notices.actions.len(), |i| {
        notices.actions[i] == Notices::SET && not_above(CallEntries::STRIKE, notices.strikes[i])
    })
}

// 5: call end before start.
pub fn set_order(notices: Notices<'_>) -> Result<(), Refusal>
    requires actions_len_bound { length notices.actions.now ≤ 256 }
    requires starts_len { length notices.starts.now ≡ length notices.actions.now }
    requires ends_len { length notices.ends.now ≡ length notices.actions.now }
    ensures { result ≡ set_order notices.entry.actions.now notices.entry.starts.now notices.entry.ends.now }
{
    refused_first(Reason::CallOrder, notices.actions.len(), |i| {
        notices.actions[i] == Notices::SET && notices.ends[i] < notices.starts[i]
    })
}
