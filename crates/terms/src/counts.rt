// 2: a list's count outside its limits, or parallel slices of unequal length; 37: more than 64 puts.

ghost use Rattle.std.specs.Prelude.{◌≡◌, not, ◌||◌, ◌≤◌, length, eqb};
ghost use Rattle.terms.specs.laws.Stages.{Tells};
ghost use Rattle.terms.specs.Market.{leg_in, calls_in, sigma_in, pillars_in};
ghost use Rattle.terms.specs.Checks.{outside, leg_count, call_count, put_count, put_most, sigma_count, pillar_count};

use crate::limits::{CallEntries, Cashflows, PillarEntries, SigmaEntries};
use crate::market::{CallSchedule, Leg, Pillars, SigmaSchedule};
use crate::ranges::out_of;
use crate::refusing::single;
use floats::{Reason, Refusal};

// Two parallel lists: a count outside low..high, or unequal ones.
fn two_wrong(low: usize, high: usize, count: usize, other: usize) -> bool
    ensures { result ≡ (outside low high count || not (eqb other count)) }
{
    out_of(low, high, count) || other != count
}

// Three parallel lists: a count outside low..high, or unequal ones.
fn three_wrong(low: usize, high: usize, count: usize, second: usize, third: usize) -> bool
    ensures { result ≡ (outside low high count || (not (eqb second count) || not (eqb third count))) }
{
    out_of(low, high, count) || unequal(count, second, third)
}

// 1 to 256 cashflows.
pub fn leg_count(leg: Leg<'_>) -> Result<(), Refusal>
    ensures { result ≡ leg_count (leg_in leg) }
{
    single(
        Reason::Count,
        three_wrong(
            Cashflows::FEWEST,
            Cashflows::MOST,
            leg.days.len(),
            leg.kinds.len(),
            leg.amounts.len(),
        ),
    )
}

// 0 to 64 call entries.
pub fn call_count(calls: CallSchedule<'_>) -> Result<(), Refusal>
    ensures { result ≡ call_count (calls_in calls) }
{
    single(
        Reason::Count,
        three_wrong(
            CallEntries::FEWEST,
            CallEntries::MOST,
            calls.starts.len(),
            calls.ends.len(),
            calls.strikes.len(),
        ),
    )
}

// Whether three parallel lists are of unequal length.
fn unequal(count: usize, second: usize, third: usize) -> bool
    ensures { result ≡ (not (eqb second count) || not (eqb third count)) }
{
    second != count || third != count
}

// Put entries: unequal slices alone.
pub fn put_count(puts: CallSchedule<'_>) -> Result<(), Refusal>
    ensures { result ≡ put_count (calls_in puts) }
{
    single(
        Reason::Count,
        unequal(puts.starts.len(), puts.ends.len(), puts.strikes.len()),
    )
}

// 37: more than 64 puts.
pub fn put_most(puts: CallSchedule<'_>) -> Result<(), Refusal>
    ensures { Tells result (put_most (calls_in puts)) (length puts.entry.starts.now ≤ 64) }
{
    let many = puts.starts.len() > CallEntries::MOST;
    single(Reason::PutCount, many)
}

// 1 to 64 sigma entries.
pub fn sigma_count(sigma: SigmaSchedule<'_>) -> Result<(), Refusal>
    ensures { result ≡ sigma_count (sigma_in sigma) }
{
    single(
        Reason::Count,
        two_wrong(
            SigmaEntries::FEWEST,
            SigmaEntries::MOST,
            sigma.times.len(),
            sigma.sigmas.len(),
        ),
    )
}

// 2 to 256 pillars.
pub fn pillar_count(pillars: Pillars<'_>) -> Result<(), Refusal>
    ensures { result ≡ pillar_count (pillars_in pillars) }
{
    single(
        Reason::Count,
        two_wrong(
            PillarEntries::FEWEST,
            PillarEntries::MOST,
            pillars.days.len(),
            pillars.factors.len(),
        ),
    )
}
