// A bond's part of a list that holds the entries of a whole book.

ghost use Rattle.std.specs.Prelude.{◌≡◌, take, drop};
ghost use Rattle.terms.specs.Market.{leg_of, leg_in, calls_of, calls_in};
ghost use Rattle.bookchecks.specs.Book.{cut_leg, cut_entries};

use crate::Part;
use terms::market::{CallSchedule, Leg};

// So many entries from a place on, as far as there are any.
pub fn cut<T>(xs: &[T], from: usize, count: usize) -> &[T]
    ensures { result.now ≡ take count (drop from xs.now) }
{
    let rest = &xs[from.min(xs.len())..];
    &rest[..count.min(rest.len())]
}

pub fn cut_leg(part: Part, leg: Leg<'_>) -> Leg<'_>
    ensures { leg_of result ≡ cut_leg part (leg_in leg) }
{
    Leg {
        days: cut(leg.days, part.from, part.count),
        kinds: cut(leg.kinds, part.from, part.count),
        amounts: cut(leg.amounts, part.from, part.count),
    }
}

pub fn cut_entries(part: Part, calls: CallSchedule<'_>) -> CallSchedule<'_>
    ensures { calls_of result ≡ cut_entries part (calls_in calls) }
{
    CallSchedule {
        starts: cut(calls.starts, part.from, part.count),
        ends: cut(calls.ends, part.from, part.count),
        strikes: cut(calls.strikes, part.from, part.count),
    }
}
