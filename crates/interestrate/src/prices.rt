// The price of the paid cashflows at a yield, and its derivative by the yield.
ghost use Rattle.std.specs.Prelude.{◌≡◌, ◌≤◌, OnErr, true, length};
ghost use Rattle.floats.specs.Answers.{outcome_of};
ghost use Rattle.interestrate.specs.Prices.{simply, compoundly, continuously, discount_and_derivative, flows, price_and_derivative};
ghost use Rattle.interestrate.specs.laws.Rows.{DiscountRow, RowRoom, join_sums};
ghost use Rattle.terms.specs.Market.{leg_in};

use crate::rates::frequency_value;
use crate::rows::{FlowRow, discount_row};
use crate::{Compounding, RateDefinition, Yield, YieldPrice};
use elementary::exp::exp_at;
use elementary::powf::powf_at;
use floats::finite::tested;
use floats::{Reason, Refusal};
use rounded::mul_add::mul_add_at;
use terms::Epoch;
use terms::market::Leg;
use terms::time::time_from;

// Simple interest: 1/(rate × time + 1), and its derivative.
pub fn simple(rate: f64, time: f64) -> Result<YieldPrice, Refusal>
    ensures { result ≡ simply rate time }
{
    let compound = mul_add_at(rate, time, 1.0, 0)?;
    if compound <= 0.0 {
        return Err(Refusal {
            reason: Reason::YieldBase,
            place: 0,
        });
    }
    let discount = tested(1.0 / compound, 0)?;
    let square = tested(compound * compound, 0)?;
    let slope = tested(-time / square, 0)?;
    Ok(YieldPrice {
        price: discount,
        derivative: slope,
    })
}

// Compounded interest: base^(−frequency × time) with base rate/frequency + 1, and its derivative.
pub fn compounded(rate: f64, time: f64, frequency: f64) -> Result<YieldPrice, Refusal>
    ensures { result ≡ compoundly rate time frequency }
{
    let part = tested(rate / frequency, 0)?;
    let base = tested(part + 1.0, 0)?;
    if base <= 0.0 {
        return Err(Refusal {
            reason: Reason::YieldBase,
            place: 0,
        });
    }
    let power = tested(-frequency * time, 0)?;
    let discount = powf_at(base, power, 0)?;
    let x = tested(-time * discount, 0)?;
    let derivative = tested(x / base, 0)?;
    Ok(YieldPrice {
        price: discount,
        derivative,
    })
}

// Continuous interest: exp(−rate × time), and its derivative.
#[tactic(auto, unfolding(floats::specs::Answers::on_outcome, crate::specs::Prices::continuously))]
pub fn continuous(rate: f64, time: f64) -> Result<YieldPrice, Refusal>
    ensures { result ≡ continuously rate time }
{
    let x = tested(-rate * time, 0)?;
    let discount = exp_at(x, 0)?;
    let derivative = tested(-time * discount, 0)?;
    Ok(YieldPrice {
        price: discount,
        derivative,
    })
}

// A yield's discount for one time and its derivative.
pub fn yield_discount_and_derivative(
    rate: f64,
    time: f64,
    compounding: Compounding,
) -> Result<YieldPrice, Refusal>
    ensures { result ≡ discount_and_derivative rate time compounding }
{
    match compounding {
        Compounding::Simple => simple(rate, time),
        Compounding::Compounded(f) => compounded(rate, time, frequency_value(f)),
        Compounding::Continuous => continuous(rate, time),
        Compounding::SimpleThenCompounded(f) => {
            let frequency = frequency_value(f);
            if time <= 1.0 / frequency {
                return simple(rate, time);
            }
            compounded(rate, time, frequency)
        }
        Compounding::CompoundedThenSimple(f) => {
            let frequency = frequency_value(f);
            if time > 1.0 / frequency {
                return simple(rate, time);
            }
            compounded(rate, time, frequency)
        }
    }
}

// A flow's discount and derivative each join their sum by mul_add; both sums stay where one is refused.
#[tactic(auto, unfolding(floats::specs::Answers::on_outcome, floats::specs::Answers::outcome_of, crate::specs::laws::Rows::join_sums))]
fn join_sums(amount: f64, flow: YieldPrice, sum: &mut YieldPrice) -> Result<(), Refusal>
    ensures joined { outcome_of result sum.new ≡ join_sums amount flow.price flow.derivative sum.old.price sum.old.derivative }
    ensures unchanged { OnErr result (sum.new ≡ sum.old) }
{
    let price = mul_add_at(amount, flow.price, sum.price, 0)?;
    let derivative = mul_add_at(amount, flow.derivative, sum.derivative, 0)?;
    *sum = YieldPrice { price, derivative };
    Ok(())
}

// Flow by flow, from a price and a derivative on: the row has each flow's discount and derivative.
fn summed_row(
    at: Yield,
    days: &[u32],
    amounts: &[f64],
    row: FlowRow<'_>,
    first: YieldPrice,
) -> Result<YieldPrice, Refusal>
    requires amounts_len { length amounts.now ≡ length days.now }
    requires room { RowRoom (length days.now) row.discounts.now row.slopes.now }
    requires known { DiscountRow true (λ time. discount_and_derivative at.rate time at.compounding) at.settlement days.now row.discounts.now row.slopes.now }
    ensures { result ≡ flows at.rate at.compounding at.settlement days.now amounts.now first.price first.derivative }
{
    let mut sum = first;
    for i in 0..days.len() {
        if at.settlement.day < days[i] {
            let flow = YieldPrice {
                price: row.discounts[i],
                derivative: row.slopes[i],
            };
            join_sums(amounts[i], flow, &mut sum)?;
        }
    }
    Ok(sum)
}

// Flow by flow, from a price and a derivative on: each flow's discount and derivative are worked out.
fn summed(
    at: Yield,
    days: &[u32],
    amounts: &[f64],
    first: YieldPrice,
) -> Result<YieldPrice, Refusal>
    requires amounts_len { length amounts.now ≡ length days.now }
    ensures { result ≡ flows at.rate at.compounding at.settlement days.now amounts.now first.price first.derivative }
{
    let mut sum = first;
    for i in 0..days.len() {
        if at.settlement.day < days[i] {
            let time = time_from(at.settlement, days[i]);
            let flow = yield_discount_and_derivative(at.rate, time, at.compounding)?;
            join_sums(amounts[i], flow, &mut sum)?;
        }
    }
    Ok(sum)
}

// A row is filled, then the flows summed.
fn by_row(
    at: Yield,
    days: &[u32],
    amounts: &[f64],
    discounts: &mut [f64],
    slopes: &mut [f64],
    first: YieldPrice,
) -> Result<YieldPrice, Refusal>
    requires { (length amounts.now ≡ length days.now) × RowRoom (length days.now) discounts.old slopes.old }
    ensures { result ≡ flows at.rate at.compounding at.settlement days.now amounts.now first.price first.derivative }
{
    if discount_row(at, days, discounts, slopes) {
        let row = FlowRow { discounts, slopes };
        return summed_row(at, days, amounts, row, first);
    }
    summed(at, days, amounts, first)
}

// The flows of a part of at most 64.
fn part_flows(
    at: Yield,
    days: &[u32],
    amounts: &[f64],
    first: YieldPrice,
) -> Result<YieldPrice, Refusal>
    requires { (length amounts.now ≡ length days.now) × (length days.now ≤ 64) }
    ensures { result ≡ flows at.rate at.compounding at.settlement days.now amounts.now first.price first.derivative }
{
    let n = days.len();
    let mut discounts = [0.0; 64];
    let mut slopes = [0.0; 64];
    by_row(
        at,
        days,
        amounts,
        &mut discounts[..n],
        &mut slopes[..n],
        first,
    )
}

// The price of the paid cashflows and its derivative, part by part.
pub fn yield_price_and_derivative(
    settlement: Epoch,
    leg: Leg<'_>,
    rate: RateDefinition,
    y: f64,
) -> Result<YieldPrice, Refusal>
    requires { length leg.amounts.now ≡ length leg.days.now }
    ensures { result ≡ price_and_derivative settlement (leg_in leg) rate y }
{
    let at = Yield {
        settlement,
        compounding: rate.compounding,
        rate: y,
    };
    let mut sum = YieldPrice {
        price: 0.0,
        derivative: 0.0,
    };
    for (days, amounts) in leg.days.chunks(64).zip(leg.amounts.chunks(64)) {
        sum = part_flows(at, days, amounts, sum)?;
    }
    Ok(sum)
}
