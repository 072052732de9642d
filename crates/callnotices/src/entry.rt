// The call list of the notices that stand, and the entry, which checks them first.

ghost use Rattle.std.specs.Prelude.{◌≡◌};
ghost use Rattle.callnotices.specs.Notices.{Parallel, notices_of};
ghost use Rattle.callnotices.specs.Standing.{yields, entries};
ghost use Rattle.callnotices.specs.Lists.{list_of, refused_list, call_list};

use crate::checks::notice_checks;
use crate::standing::standing_of;
use crate::{CallList, Notices};
use floats::Refusal;

// A refusal beside a list that is all zero.
fn refused_list(refusal: Refusal) -> CallList
    ensures { result ≡ refused_list refusal }
{
    CallList {
        refusal: Some(refusal),
        count: 0,
        starts: [0; 64],
        ends: [0; 64],
        strikes: [0.0; 64],
    }
}

// Whether the notice at an index stands as a set; the index past the last one is no notice.
fn yields_at(notices: Notices<'_>, i: usize) -> bool
    ensures { result ≡ yields notices.entry.actions.now i }
{
    i < notices.actions.len() && notices.actions[i] == Notices::SET
}

// The list of the notices that stand.
fn listed(notices: Notices<'_>) -> CallList
    requires { Parallel (notices_of notices) }
    ensures { result ≡ list_of (notices_of notices.entry) (entries (notices_of notices.entry)) }
{
    let mut call_starts = [0u32; 64];
    let mut call_ends = [0u32; 64];
    let mut call_strikes = [0.0; 64];
    let mut count: usize = 0;
    for before in 0..Notices::LAST_SERIES {
        let at = standing_of(notices, before + 1);
        if !yields_at(notices, at) {
            continue;
        }
        call_starts[count] = notices.starts[at];
        call_ends[count] = notices.ends[at];
        call_strikes[count] = notices.strikes[at];
        count += 1;
    }
    CallList {
        refusal: None,
        count: count as u32,
        starts: call_starts,
        ends: call_ends,
        strikes: call_strikes,
    }
}

// The entry: the checks, then the list.
pub fn call_list(notices: Notices<'_>) -> CallList
    ensures { result ≡ call_list (notices_of notices.entry) }
{
    match notice_checks(notices) {
        Ok(()) => listed(notices),
        Err(refusal) => refused_list(refusal),
    }
}
