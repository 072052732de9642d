// The checks of the tree value and of spread from price, in stages; where the grid has one, the stage begins with it.

ghost use Rattle.std.specs.Prelude.{◌≡◌, ◌++◌, ◌≤◌, length};
ghost use Rattle.terms.specs.Checks.{first_of};
ghost use Rattle.terms.specs.Entries.{setting_checks, model_counts, tree_counts, tree_days, tree_fields, tree_numbers, tree_orders};
ghost use Rattle.terms.specs.laws.Stages.{Tells};
ghost use Rattle.terms.specs.laws.TermChecks.{LegCounted, PillarsCounted, SigmaCounted};
ghost use Rattle.terms.specs.laws.CallChecks.{CallCounted};
ghost use Rattle.terms.specs.CallLists.{Entries};
ghost use Rattle.terms.specs.Market.{calls_in, market_in, pillars_in, sigma_in};

use crate::grid_stages::{grid_counts, grid_days, list_numbers};
use floats::Refusal;
use terms::calls::call_order;
use terms::cashflows::any_paid;
use terms::counts::{pillar_count, sigma_count};
use terms::fields::{alpha_range, units_range, within};
use terms::market::{CallSchedule, Market, Pillars, SigmaSchedule};
use terms::pillars::{factor_range, pillar_days};
use terms::sigma::{sigma_order, sigma_range};

// 2: the counts of sigma and pillars.
fn model_counts(sigma: SigmaSchedule<'_>, pillars: Pillars<'_>) -> Result<(), Refusal>
    ensures { Tells result
        (first_of (model_counts (sigma_in sigma) (pillars_in pillars)))
        (SigmaCounted (sigma_in sigma) × PillarsCounted (pillars_in pillars)) }
{
    sigma_count(sigma)?;
    pillar_count(pillars)
}

// 1, 33 and 2: the grid's settings, day count and counts, then those of sigma and pillars.
pub fn tree_counts(market: Market<'_>, calls: CallSchedule<'_>) -> Result<(), Refusal>
    ensures { Tells result
        (first_of (setting_checks (market_in market).controls (market_in market).settlement.code ++
        tree_counts (market_in market).bond.leg (calls_in calls) (market_in market).bond.puts (market_in market).model.sigma (market_in market).pillars))
        ((LegCounted (market_in market).bond.leg × CallCounted (calls_in calls) × Entries (market_in market).bond.puts) ×
        (SigmaCounted (market_in market).model.sigma × PillarsCounted (market_in market).pillars)) }
{
    grid_counts(
        market.controls,
        market.settlement.code,
        market.bond.leg,
        calls,
        market.bond.puts,
    )?;
    model_counts(market.model.sigma, market.pillars)
}

// 3: days and kinds.
pub fn tree_days(market: Market<'_>, calls: CallSchedule<'_>) -> Result<(), Refusal>
    requires days_len_bound { length market.bond.leg.days.now ≤ 256 }
    requires starts_len_bound { length calls.starts.now ≤ 64 }
    requires put_starts_len_bound { length market.bond.puts.starts.now ≤ 64 }
    requires pillars_len_bound { length market.pillars.days.now ≤ 256 }
    requires kinds_len { length market.bond.leg.kinds.now ≡ length market.bond.leg.days.now }
    requires ends_len { length calls.ends.now ≡ length calls.starts.now }
    requires put_ends_len { length market.bond.puts.ends.now ≡ length market.bond.puts.starts.now }
    ensures { result ≡ first_of
        (tree_days (market_in market).settlement.day (market_in market).bond.leg (calls_in calls) (market_in market).bond.puts (market_in market).pillars) }
{
    grid_days(
        market.settlement.day,
        market.bond.leg,
        calls,
        market.bond.puts,
    )?;
    pillar_days(market.pillars)
}

// 4: single numbers and their ranges; the last is the spread or the target, with its limit.
fn tree_fields(limit: f64, units: f64, alpha: f64, x: f64) -> Result<(), Refusal>
    ensures { result ≡ first_of (tree_fields limit units alpha x) }
{
    units_range(units)?;
    alpha_range(alpha)?;
    within(limit, x)
}

// 4: numbers and their ranges.
pub fn tree_numbers(limit: f64, market: Market<'_>, calls: CallSchedule<'_>) -> Result<(), Refusal>
    requires amounts_len_bound { length market.bond.leg.amounts.now ≤ 256 }
    requires strikes_len_bound { length calls.strikes.now ≤ 64 }
    requires put_strikes_len_bound { length market.bond.puts.strikes.now ≤ 64 }
    requires times_len_bound { length market.model.sigma.times.now ≤ 64 }
    requires factors_len_bound { length market.pillars.factors.now ≤ 256 }
    requires sigmas_len { length market.model.sigma.sigmas.now ≡ length market.model.sigma.times.now }
    ensures { result ≡ first_of
        (tree_numbers limit (market_in market).bond.units (market_in market).model.alpha (market_in market).spread (market_in market).bond.leg (calls_in calls)
        (market_in market).bond.puts (market_in market).model.sigma (market_in market).pillars) }
{
    tree_fields(limit, market.bond.units, market.model.alpha, market.spread)?;
    list_numbers(market.bond.leg, calls, market.bond.puts)?;
    sigma_range(market.model.sigma)?;
    factor_range(market.pillars)
}

// 5 to 7: a call or a put that ends before it starts, sigma times, nothing paid.
pub fn tree_orders(market: Market<'_>, calls: CallSchedule<'_>) -> Result<(), Refusal>
    requires starts_len_bound { length calls.starts.now ≤ 64 }
    requires put_starts_len_bound { length market.bond.puts.starts.now ≤ 64 }
    requires times_len_bound { length market.model.sigma.times.now ≤ 64 }
    requires ends_len { length calls.ends.now ≡ length calls.starts.now }
    requires put_ends_len { length market.bond.puts.ends.now ≡ length market.bond.puts.starts.now }
    ensures { result ≡ first_of
        (tree_orders (market_in market).settlement.day (market_in market).bond.leg (calls_in calls) (market_in market).bond.puts (market_in market).model.sigma) }
{
    let puts = market.bond.puts;
    call_order(calls)?;
    call_order(puts)?;
    sigma_order(market.model.sigma)?;
    any_paid(market.settlement.day, market.bond.leg)
}
