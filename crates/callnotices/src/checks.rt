// The checks of notices, number by number.

ghost use Rattle.std.specs.Prelude.{◌≡◌, ◌≤◌, length};
ghost use Rattle.terms.specs.laws.Stages.{Tells};
ghost use Rattle.callnotices.specs.Notices.{notices_of};
ghost use Rattle.callnotices.specs.Checks.{notice_checks};
ghost use Rattle.callnotices.specs.laws.Stages.{Counted, notice_counts, notice_fields, set_fields};

use crate::Notices;
use crate::ranges::{no_repeats, notice_count, notice_range, too_many};
use crate::set::{set_days, set_order, set_strikes};
use floats::Refusal;

// 2 and 41: unequal slices, and more than 256 notices.
fn notice_counts(notices: Notices<'_>) -> Result<(), Refusal>
    ensures { Tells result (notice_counts (notices_of notices.entry)) (Counted (notices_of notices.entry)) }
{
    notice_count(notices)?;
    too_many(notices)
}

// 42 and 43: fields out of range, and repeats.
fn notice_fields(notices: Notices<'_>) -> Result<(), Refusal>
    requires series_len_bound { length notices.series.now ≤ 256 }
    requires versions_len { length notices.versions.now ≡ length notices.series.now }
    requires actions_len { length notices.actions.now ≡ length notices.series.now }
    ensures { result ≡ notice_fields notices.entry.series.now notices.entry.versions.now notices.entry.actions.now }
{
    notice_range(notices)?;
    no_repeats(notices)
}

// 3, 4 and 5: the call fields of set notices.
fn set_fields(notices: Notices<'_>) -> Result<(), Refusal>
    requires actions_len_bound { length notices.actions.now ≤ 256 }
    requires starts_len { length notices.starts.now ≡ length notices.actions.now }
    requires ends_len { length notices.ends.now ≡ length notices.actions.now }
    requires strikes_len { length notices.strikes.now ≡ length notices.actions.now }
    ensures { result ≡ set_fields notices.entry.actions.now notices.entry.starts.now notices.entry.ends.now notices.entry.strikes.now }
{
    set_days(notices)?;
    set_strikes(notices)?;
    set_order(notices)
}

// What the call list checks.
pub fn notice_checks(notices: Notices<'_>) -> Result<(), Refusal>
    ensures { result ≡ notice_checks (notices_of notices.entry) }
{
    notice_counts(notices)?;
    notice_fields(notices)?;
    set_fields(notices)
}
