// The last checks of every entry that takes pillars.

ghost use Rattle.std.specs.Prelude.{◌≡◌, ◌≤◌, length};
ghost use Rattle.terms.specs.Checks.{first_of};
ghost use Rattle.terms.specs.Curve.{pillar_times};
ghost use Rattle.terms.specs.Entries.{curve_orders, late_checks};
ghost use Rattle.terms.specs.Market.{leg_in, pillars_in};

use floats::Refusal;
use terms::Settlement;
use terms::cashflows::maturity_apart;
use terms::market::{Leg, Pillars};
use terms::pillars::{pillars_to_maturity, positive_factors, same_times};

// 8 and 34: the pillars' days, then their times.
pub fn curve_orders(
    settlement: Settlement,
    leg: Leg<'_>,
    pillars: Pillars<'_>,
    curve_times: &[f64],
) -> Result<(), Refusal>
    requires pillars_len_bound { length pillars.days.now ≤ 256 }
    requires curve_times_value { curve_times.now ≡ pillar_times settlement pillars.days.now }
    ensures { result ≡ first_of (curve_orders settlement (leg_in leg) (pillars_in pillars)) }
{
    pillars_to_maturity(settlement.day, leg, pillars)?;
    same_times(curve_times)
}

// 8, 34, 35 and 44: the pillars' days and times, maturity's time, then the factors.
pub fn late_checks(
    settlement: Settlement,
    leg: Leg<'_>,
    pillars: Pillars<'_>,
    curve_times: &[f64],
) -> Result<(), Refusal>
    requires pillars_len_bound { length pillars.days.now ≤ 256 }
    requires factors_len_bound { length pillars.factors.now ≤ 256 }
    requires curve_times_value { curve_times.now ≡ pillar_times settlement pillars.days.now }
    ensures { result ≡ first_of (late_checks settlement (leg_in leg) (pillars_in pillars)) }
{
    curve_orders(settlement, leg, pillars, curve_times)?;
    maturity_apart(settlement, leg)?;
    positive_factors(pillars)
}
