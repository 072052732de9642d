// The checks of the cashflows.

ghost use Rattle.std.specs.Prelude.{◌≡◌, ◌≤◌, length};
ghost use Rattle.terms.specs.Market.{leg_in};
ghost use Rattle.terms.specs.Checks.{leg_days, any_paid, maturity_apart};

use crate::Settlement;
use crate::limits::Cashflows;
use crate::lists::last_day;
use crate::market::Leg;
use crate::ranges::no_day;
use crate::refusing::{refused_first, single};
use crate::time::year_fraction;
use floats::{Reason, Refusal};

// 3: days and kinds: a day out of range, days falling, or a kind that isn't 0 or 1.
pub fn leg_days(leg: Leg<'_>) -> Result<(), Refusal>
    requires days_len_bound { length leg.days.now ≤ 256 }
    requires kinds_len { length leg.kinds.now ≡ length leg.days.now }
    ensures { result ≡ leg_days (leg_in leg) }
{
    let Leg { days, kinds, .. } = leg;
    refused_first(Reason::Day, days.len(), |i| {
        no_day(days[i]) || (0 < i && days[i] < days[i - 1]) || Cashflows::LAST_KIND < kinds[i]
    })
}

// 7: some cashflow after settlement.
pub fn any_paid(settlement: u32, leg: Leg<'_>) -> Result<(), Refusal>
    ensures { result ≡ any_paid settlement (leg_in leg) }
{
    single(Reason::NothingPaid, last_day(leg.days) <= settlement)
}

// 35: a maturity whose time is 0.
pub fn maturity_apart(settlement: Settlement, leg: Leg<'_>) -> Result<(), Refusal>
    ensures { result ≡ maturity_apart settlement (leg_in leg) }
{
    let time = year_fraction(settlement, last_day(leg.days));
    single(Reason::NoTime, time == 0.0)
}
