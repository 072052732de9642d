// The input checks of each entry: in number order, inside one number by single fields, cashflows, calls, puts, sigma, pillars. Each entry checks only what it takes.

ghost use Rattle.std.specs.Prelude.{◌≡◌};
ghost use Rattle.terms.specs.Curve.{CurveTimes};
ghost use Rattle.terms.specs.Entries.{grid_checks, market_checks, tree_checks, spread_checks, straight_checks, yield_checks, price_checks, target_checks};
ghost use Rattle.terms.specs.Market.{leg_in, calls_in, bond_in, controls_of, market_in, pillars_in};

use crate::grid_stages::{grid_counts, grid_days, grid_numbers, grid_orders};
use crate::late_stages::late_checks;
use crate::straight_stages::{straight_counts, straight_days, straight_numbers, straight_orders};
use crate::tree_stages::{tree_counts, tree_days, tree_numbers, tree_orders};
use crate::yield_stages::{yield_counts, yield_days, yield_numbers};
use floats::Refusal;
use terms::Settlement;
use terms::cashflows::any_paid;
use terms::counts::put_most;
use terms::limits::{Spread, Target, Yields};
use terms::market::{Bond, CallSchedule, Leg, Market, Pillars, TimeGrid};

// What the grid checks.
pub fn grid_checks(
    settlement: Settlement,
    bond: Bond<'_>,
    calls: CallSchedule<'_>,
    controls: TimeGrid,
) -> Result<(), Refusal>
    ensures { result ≡ grid_checks settlement (bond_in bond) (calls_in calls) (controls_of controls) }
{
    grid_counts(controls, settlement.code, bond.leg, calls, bond.puts)?;
    put_most(bond.puts)?;
    grid_days(settlement.day, bond.leg, calls, bond.puts)?;
    grid_numbers(bond, calls)?;
    grid_orders(settlement, bond.leg, calls, bond.puts)
}

// What the straight value checks.
pub fn straight_checks(
    settlement: Settlement,
    leg: Leg<'_>,
    spread: f64,
    pillars: Pillars<'_>,
    curve_times: &[f64],
) -> Result<(), Refusal>
    requires { CurveTimes settlement pillars.days.now curve_times.now }
    ensures { result ≡ straight_checks settlement (leg_in leg) spread (pillars_in pillars) }
{
    straight_counts(settlement.code, leg, pillars)?;
    straight_days(settlement.day, leg, pillars)?;
    straight_numbers(spread, leg, pillars)?;
    straight_orders(settlement, leg, pillars, curve_times)
}

// What both yield entries check, with the limit of the yield or the target, and the check of the rate definition.
fn yield_checks(
    limit: f64,
    settlement: Settlement,
    leg: Leg<'_>,
    x: f64,
    rate: Result<(), Refusal>,
) -> Result<(), Refusal>
    ensures { result ≡ yield_checks limit settlement (leg_in leg) x rate }
{
    yield_counts(settlement.code, leg)?;
    yield_days(settlement.day, leg)?;
    yield_numbers(limit, x, leg)?;
    any_paid(settlement.day, leg)?;
    rate
}

// What price from yield checks.
pub fn price_checks(
    settlement: Settlement,
    leg: Leg<'_>,
    given: f64,
    rate: Result<(), Refusal>,
) -> Result<(), Refusal>
    ensures { result ≡ price_checks settlement (leg_in leg) given rate }
{
    yield_checks(Yields::GIVEN, settlement, leg, given, rate)
}

// What yield from price checks.
pub fn target_checks(
    settlement: Settlement,
    leg: Leg<'_>,
    target: f64,
    rate: Result<(), Refusal>,
) -> Result<(), Refusal>
    ensures { result ≡ target_checks settlement (leg_in leg) target rate }
{
    yield_checks(Target::MOST, settlement, leg, target, rate)
}

// What the tree value and spread from price check, with the limit of the spread or the target.
fn market_checks(
    limit: f64,
    market: Market<'_>,
    calls: CallSchedule<'_>,
    curve_times: &[f64],
) -> Result<(), Refusal>
    requires { CurveTimes market.settlement market.pillars.days.now curve_times.now }
    ensures { result ≡ market_checks limit (market_in market) (calls_in calls) }
{
    tree_counts(market, calls)?;
    put_most(market.bond.puts)?;
    tree_days(market, calls)?;
    tree_numbers(limit, market, calls)?;
    tree_orders(market, calls)?;
    late_checks(
        market.settlement,
        market.bond.leg,
        market.pillars,
        curve_times,
    )
}

// What the tree value checks.
pub fn tree_checks(
    market: Market<'_>,
    calls: CallSchedule<'_>,
    curve_times: &[f64],
) -> Result<(), Refusal>
    requires { CurveTimes market.settlement market.pillars.days.now curve_times.now }
    ensures { result ≡ tree_checks (market_in market) (calls_in calls) }
{
    market_checks(Spread::MOST, market, calls, curve_times)
}

// What spread from price checks: a target stands where the spread stood.
pub fn spread_checks(
    market: Market<'_>,
    calls: CallSchedule<'_>,
    curve_times: &[f64],
) -> Result<(), Refusal>
    requires { CurveTimes market.settlement market.pillars.days.now curve_times.now }
    ensures { result ≡ spread_checks (market_in market) (calls_in calls) }
{
    market_checks(Target::MOST, market, calls, curve_times)
}
