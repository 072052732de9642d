// Which notice of a series stands: that with the highest version.

ghost use Rattle.std.specs.Prelude.{◌≡◌, ◌<◌, ◌≤◌, length};
ghost use Rattle.callnotices.specs.Standing.{is_version, higher, first, highest, standing};
ghost use Rattle.callnotices.specs.Checks.{repeats_at};

use crate::Notices;

// The notice at an index is of the series and has the version.
fn is_version(notices: Notices<'_>, s: u32, version: u32, i: usize) -> bool
    requires i_in_bounds { i < length notices.series.now }
    requires versions_len { length notices.versions.now ≡ length notices.series.now }
    ensures { result ≡ is_version notices.entry.series.now notices.entry.versions.now s version i }
{
    notices.series[i] == s && notices.versions[i] == version
}

// The lowest index below count of a notice of the series with the version; count where there is none.
#[tactic(auto, using(crate::proofs::Looking::looking))]
fn first_version(notices: Notices<'_>, s: u32, version: u32, count: usize) -> usize
    requires count_in_bounds { count ≤ length notices.series.now }
    requires versions_len { length notices.versions.now ≡ length notices.series.now }
    ensures { result ≡ first (is_version notices.entry.series.now notices.entry.versions.now s version) count }
{
    for i in 0..count {
        if is_version(notices, s, version, i) {
            return i;
        }
    }
    count
}

// Whether a notice repeats the series and version of an earlier one.
pub fn repeats_at(notices: Notices<'_>, i: usize) -> bool
    requires i_in_bounds { i < length notices.series.now }
    requires versions_len { length notices.versions.now ≡ length notices.series.now }
    ensures { result ≡ repeats_at notices.entry.series.now notices.entry.versions.now i }
{
    first_version(notices, notices.series[i], notices.versions[i], i) < i
}

// The version at an index where it is of the series and above the highest so far, else the highest so far.
fn higher_at(notices: Notices<'_>, s: u32, so_far: u32, i: usize) -> u32
    requires i_in_bounds { i < length notices.series.now }
    requires versions_len { length notices.versions.now ≡ length notices.series.now }
    ensures { result ≡ higher notices.entry.series.now notices.entry.versions.now s so_far i }
{
    if notices.series[i] == s && so_far < notices.versions[i] {
        notices.versions[i]
    } else {
        so_far
    }
}

// The highest version of a series, 0 without one.
#[tactic(auto, using(crate::proofs::Climbing::climbing))]
fn highest_version(notices: Notices<'_>, s: u32) -> u32
    requires { length notices.versions.now ≡ length notices.series.now }
    ensures { result ≡ highest notices.entry.series.now notices.entry.versions.now s }
{
    let mut so_far = 0;
    for i in 0..notices.series.len() {
        so_far = higher_at(notices, s, so_far, i);
    }
    so_far
}

// The notice of a series that stands; the count of notices where the series has none.
pub fn standing_of(notices: Notices<'_>, s: u32) -> usize
    requires { length notices.versions.now ≡ length notices.series.now }
    ensures { result ≡ standing notices.entry.series.now notices.entry.versions.now s }
{
    first_version(
        notices,
        s,
        highest_version(notices, s),
        notices.series.len(),
    )
}
