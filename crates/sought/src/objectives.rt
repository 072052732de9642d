// What the solver evaluates: the worth of what is priced at a tried argument, less the target.
ghost use Rattle.std.specs.Prelude.{◌≡◌, length};
ghost use Rattle.std.specs.Float.{binary64};
ghost use Rattle.std.specs.Float.Ieee.{sub};
ghost use Rattle.floats.specs.Answers.{tested};
ghost use Rattle.rollback.specs.Walking.{Walkable};
ghost use Rattle.sought.specs.Objectives.{objective};
ghost use Rattle.sought.specs.laws.Sought.{spread_at, sought_at, Ready};
ghost use Rattle.terms.specs.Market.{leg_in};

use crate::{Priced, Sought};
use floats::finite::tested;
use floats::{Reason, Refusal};
use interestrate::RateDefinition;
use interestrate::prices::yield_price_and_derivative;
use rollback::walking::{Events, Lattice, root_value};
use terms::Epoch;
use terms::limits::Spread;
use terms::market::Leg;
use terms::ranges::not_within;

// Value less target.
fn above_target(value: f64, target: f64) -> Result<f64, Refusal>
    ensures { result ≡ tested (sub binary64 value target) 0 }
{
    tested(value - target, 0)
}

// Price less target at a yield. The derivative is worked out too.
fn at_yield(
    settlement: Epoch,
    leg: Leg<'_>,
    rate: RateDefinition,
    target: f64,
    y: f64,
) -> Result<f64, Refusal>
    requires { length leg.amounts.now ≡ length leg.days.now }
    ensures { result ≡ objective settlement (leg_in leg) rate target y }
{
    let at_y = yield_price_and_derivative(settlement, leg, rate, y)?;
    above_target(at_y.price, target)
}

// The root's value less target at a spread.
fn at_spread(
    lattice: Lattice<'_>,
    events: Events<'_>,
    target: f64,
    first: &mut [f64],
    second: &mut [f64],
    spread: f64,
) -> Result<f64, Refusal>
    requires { Walkable lattice events (length first.old) (length second.old) }
    ensures { result ≡ spread_at lattice.entry events.entry target spread }
{
    if 1.0 < spread {
        return Err(Refusal {
            reason: Reason::SpreadAbove,
            place: 0,
        });
    }
    if not_within(Spread::MOST, spread) {
        return Err(Refusal {
            reason: Reason::Number,
            place: 0,
        });
    }
    let value = root_value(lattice, events, spread, first, second)?;
    above_target(value, target)
}

// The objective at a tried argument. The rows are room for the walk over a tree.
pub fn objective(
    sought: Sought<'_>,
    first: &mut [f64],
    second: &mut [f64],
    x: f64,
) -> Result<f64, Refusal>
    requires { Ready sought.priced (length first.old) (length second.old) }
    ensures { result ≡ sought_at sought.entry.priced sought.entry.target x }
{
    match sought.priced {
        Priced::Cashflows(settlement, leg, rate) => {
            at_yield(settlement, leg, rate, sought.target, x)
        }
        Priced::Tree(lattice, events) => {
            at_spread(lattice, events, sought.target, first, second, x)
        }
    }
}
