// The checks of notices before their call fields: 2, 41, 42 and 43.

ghost use Rattle.std.specs.Prelude.{◌≡◌, ◌<◌, ◌≤◌, length};
ghost use Rattle.callnotices.specs.Notices.{notices_of};
ghost use Rattle.callnotices.specs.Checks.{unequal, notice_count, too_many, wrong_at, notice_range, no_repeats};

use crate::Notices;
use crate::standing::repeats_at;
use floats::{Reason, Refusal};
use terms::refusing::{refused_first, single};

// Parallel slices of unequal length.
fn lengths_differ(
    count: usize,
    versions: usize,
    actions: usize,
    starts: usize,
    ends: usize,
    strikes: usize,
) -> bool
    ensures { result ≡ unequal count versions actions starts ends strikes }
{
    versions != count || actions != count || starts != count || ends != count || strikes != count
}

// 2: unequal slices.
pub fn notice_count(notices: Notices<'_>) -> Result<(), Refusal>
    ensures { result ≡ notice_count (notices_of notices.entry) }
{
    single(
        Reason::Count,
        lengths_differ(
            notices.series.len(),
            notices.versions.len(),
            notices.actions.len(),
            notices.starts.len(),
            notices.ends.len(),
            notices.strikes.len(),
        ),
    )
}

// 41: more than 256 notices.
pub fn too_many(notices: Notices<'_>) -> Result<(), Refusal>
    ensures { result ≡ too_many notices.entry.series.now }
{
    single(Reason::NoticeCount, Notices::MOST < notices.series.len())
}

// 42: a series, version or action out of range, at an index.
fn wrong_at(notices: Notices<'_>, i: usize) -> bool
    requires i_in_bounds { i < length notices.series.now }
    requires versions_len { length notices.versions.now ≡ length notices.series.now }
    requires actions_len { length notices.actions.now ≡ length notices.series.now }
    ensures { result ≡ wrong_at notices.entry.series.now notices.entry.versions.now notices.entry.actions.now i }
{
    !matches!(
        notices.series[i],
        Notices::FIRST_SERIES..=Notices::LAST_SERIES
    ) || !matches!(
        notices.versions[i],
        Notices::FIRST_VERSION..=Notices::LAST_VERSION
    ) || Notices::WITHDRAW < notices.actions[i]
}

// 42: series, versions and actions.
pub fn notice_range(notices: Notices<'_>) -> Result<(), Refusal>
    requires series_len_bound { length notices.series.now ≤ 256 }
    requires versions_len { length notices.versions.now ≡ length notices.series.now }
    requires actions_len { length notices.actions.now ≡ length notices.series.now }
    ensures { result ≡ notice_range notices.entry.series.now notices.entry.versions.now notices.entry.actions.now }
{
    refused_first(Reason::NoticeRange, notices.series.len(), |i| {
        wrong_at(notices, i)
    })
}

// 43: the same series and version twice.
pub fn no_repeats(notices: Notices<'_>) -> Result<(), Refusal>
    requires series_len_bound { length notices.series.now ≤ 256 }
    requires versions_len { length notices.versions.now ≡ length notices.series.now }
    ensures { result ≡ no_repeats notices.entry.series.now notices.entry.versions.now }
{
    refused_first(Reason::NoticeRepeated, notices.series.len(), |i| {
        repeats_at(notices, i)
    })
}
