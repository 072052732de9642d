// The entries: price from yield, and yield from price.
ghost use Rattle.std.specs.Prelude.{◌≡◌, length};
ghost use Rattle.terms.specs.Market.{leg_in};
ghost use Rattle.bondanalytics.specs.Yields.{price_from_yield, yield_from_price, solve_yield};

use bracketedroot::solver::bracketed_root;
use brackets::brackets::counted;
use brackets::{NoRoot, Root};
use entrychecks::entries::{price_checks, target_checks};
use floats::Refusal;
use interestrate::prices::yield_price_and_derivative;
use interestrate::rates::{lowest_yield, rate_check, rate_of};
use interestrate::{RateDefinition, YieldPrice};
use sought::{Priced, Sought};
use terms::market::Leg;
use terms::time::epoch_of;
use terms::{Epoch, Settlement};

// The price of the cashflows at a yield, and its derivative.
pub fn price_from_yield(
    settlement: Settlement,
    leg: Leg<'_>,
    compounding: u32,
    frequency: u32,
    y: f64,
) -> Result<YieldPrice, Refusal>
    ensures { result ≡ price_from_yield settlement (leg_in leg) compounding frequency y }
{
    let found = rate_of(compounding, frequency);
    price_checks(settlement, leg, y, rate_check(found))?;
    let rate = found?;
    let epoch = epoch_of(settlement);
    yield_price_and_derivative(epoch, leg, rate, y)
}

// The yield at which the cashflows are worth the target.
fn solve_yield(
    settlement: Epoch,
    leg: Leg<'_>,
    rate: RateDefinition,
    target: f64,
) -> Result<Root, NoRoot>
    requires { length leg.amounts.now ≡ length leg.days.now }
    ensures { result ≡ solve_yield settlement (leg_in leg) rate target }
{
    let sought = Sought {
        priced: Priced::Cashflows(settlement, leg, rate),
        target,
    };
    let lowest = lowest_yield(rate.compounding);
    bracketed_root(
        sought,
        &mut [],
        &mut [],
        Sought::LOWER,
        Sought::UPPER,
        lowest,
    )
}

// The yield at which the cashflows are worth the target, and the evaluations made.
pub fn yield_from_price(
    settlement: Settlement,
    leg: Leg<'_>,
    compounding: u32,
    frequency: u32,
    target: f64,
) -> Result<Root, NoRoot>
    ensures { result ≡ yield_from_price settlement (leg_in leg) compounding frequency target }
{
    let found = rate_of(compounding, frequency);
    let checked = target_checks(settlement, leg, target, rate_check(found));
    counted(checked, 0)?;
    let rate = counted(found, 0)?;
    let epoch = epoch_of(settlement);
    solve_yield(epoch, leg, rate, target)
}
