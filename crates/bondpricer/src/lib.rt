// What a bond is worth without its calls.
#![tactic(auto, unfolding(floats::specs::Answers::on_outcome))]

ghost use Rattle.std.specs.Prelude.{◌≡◌, length};
ghost use Rattle.floats.specs.Answers.{plus_zero};
ghost use Rattle.terms.specs.Market.{leg_in, pillars_in};
ghost use Rattle.terms.specs.Curve.{curve_over};
ghost use Rattle.bondpricer.specs.Straight.{with_flow, flows, discounted_value, straight_value};

use elementary::exp::exp_at;
use entrychecks::entries::straight_checks;
use floats::finite::tested;
use floats::{Reason, Refusal};
use terms::curve::{curve_at, pillar_times, timed_pillars};
use terms::market::{Curve, Leg, Pillars};
use terms::time::{epoch_of, time_from};
use terms::{Epoch, Settlement};

// What each cashflow is discounted by. The reference is the settlement's factor.
#[derive(Clone, Copy)]
struct Discounting<'a> {
    settlement: Epoch,
    spread: f64,
    curve: Curve<'a>,
    reference: f64,
}

// amount × (the day's factor / settlement's) × exp(spread × −time), added to the value.
fn with_flow(by: Discounting<'_>, day: u32, amount: f64, value: f64) -> Result<f64, Refusal>
    ensures { result ≡ with_flow (curve_over by.entry.curve.times.now by.entry.curve.factors.now) by.entry.settlement by.entry.spread by.entry.reference day amount value }
{
    let time = time_from(by.settlement, day);
    let factor = curve_at(by.curve.times, by.curve.factors, time, 0)?;
    let discount = tested(factor / by.reference, 0)?;
    let x = tested(by.spread * -time, 0)?;
    let spread_discount = exp_at(x, 0)?;
    let y = tested(amount * discount, 0)?;
    let z = tested(y * spread_discount, 0)?;
    tested(value + z, 0)
}

// The paid cashflows in list order.
fn all_flows(by: Discounting<'_>, leg: Leg<'_>) -> Result<f64, Refusal>
    requires { length leg.amounts.now ≡ length leg.days.now }
    ensures { result ≡ flows (curve_over by.entry.curve.times.now by.entry.curve.factors.now) by.entry.settlement by.entry.spread by.entry.reference leg.entry.days.now leg.entry.amounts.now plus_zero }
{
    let mut value = 0.0;
    for i in 0..leg.days.len() {
        let day = leg.days[i];
        let amount = leg.amounts[i];
        if by.settlement.day < day {
            value = with_flow(by, day, amount, value)?;
        }
    }
    Ok(value)
}

// discounted_value: 25 is tried on settlement's factor only.
pub fn discounted_value(
    settlement: Epoch,
    leg: Leg<'_>,
    spread: f64,
    curve: Curve<'_>,
) -> Result<f64, Refusal>
    requires { length leg.amounts.now ≡ length leg.days.now }
    ensures { result ≡ discounted_value (curve_over curve.entry.times.now curve.entry.factors.now) settlement (leg_in leg) spread }
{
    let time = time_from(settlement, settlement.day);
    let reference = curve_at(curve.times, curve.factors, time, 0)?;
    if reference <= 0.0 {
        return Err(Refusal {
            reason: Reason::Factor,
            place: 0,
        });
    }
    let by = Discounting {
        settlement,
        spread,
        curve,
        reference,
    };
    all_flows(by, leg)
}

// What the bond is worth without its calls.
pub fn straight_value(
    settlement: Settlement,
    leg: Leg<'_>,
    spread: f64,
    pillars: Pillars<'_>,
) -> Result<f64, Refusal>
    ensures { result ≡ straight_value settlement (leg_in leg) spread (pillars_in pillars) }
{
    let table = pillar_times(settlement, pillars.days);
    let times = &table[..timed_pillars(pillars.days)];
    straight_checks(settlement, leg, spread, pillars, times)?;
    let curve = Curve {
        times,
        factors: pillars.factors,
    };
    discounted_value(epoch_of(settlement), leg, spread, curve)
}
