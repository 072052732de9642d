// Fitting the tree to the curve, one layer: the weighted sum of state prices, the shift, and the state prices of the next layer.

ghost use Rattle.std.specs.Prelude.{◌≡◌, true, ◌*◌, ◌+◌, ◌^◌, ◌<◌, ◌≤◌, length, Ok};
ghost use Rattle.floats.specs.Answers.{plus_zero, outcome_of};
ghost use Rattle.elementary.specs.Exponential.{exp_at};
ghost use Rattle.forwardinduction.specs.Fit.{weighted};
ghost use Rattle.lattice.specs.laws.Stored.{numbers_in, row_of};
ghost use Rattle.lattice.specs.laws.Positions.{spot_at, past, start_of, Layered};
ghost use Rattle.forwardinduction.specs.laws.Exps.{rate_argument, weight_argument};
ghost use Rattle.forwardinduction.specs.laws.FitSteps.{weigh_one, shift_from, discounted_of, add_at, share_at, add_three, onward_at};

use crate::exps::{discounts, weights};
use elementary::exp::exp_at;
use elementary::ln::ln_at;
use floats::finite::tested;
use floats::{Reason, Refusal};
use lattice::reach::{nothing_below, reached};

// One more price in the sum: price × exp(spacing × (−node × time_step)), added. Where `known` says so, e is the exp:
// the flag is its part's, and an Option for each node would be made of it and at once taken apart.
fn weigh(
    known: bool,
    e: f64,
    total: f64,
    node: f64,
    price: f64,
    spacing: f64,
    dt: f64,
    place: u32,
) -> Result<f64, Refusal>
    requires { known ≡ true → exp_at (weight_argument spacing dt node) place ≡ Ok e }
    ensures { result ≡ weigh_one spacing dt place node price total }
{
    if known {
        return tested(total + price * e, place);
    }
    let discount = exp_at(spacing * (-node * dt), place)?;
    tested(total + price * discount, place)
}

// The weighted sum of a layer's state prices, nodes rising.
pub fn weighted_sum(
    nodes: &[i32],
    row: &[f64],
    spacing: f64,
    dt: f64,
    place: u32,
) -> Result<f64, Refusal>
    requires { length nodes.now ≡ length row.now * 2 }
    ensures { result ≡ weighted spacing dt place (row_of (numbers_in nodes.now) row.now) plus_zero }
{
    let mut es = [0.0; 64];
    let mut good = false;
    let mut total = 0.0;
    for i in 0..row.len() {
        good = weights(nodes, row.len(), i, good, spacing, dt, &mut es);
        let node = nodes[i * 2];
        let e = es[i % 64];
        total = weigh(good, e, total, node as f64, row[i], spacing, dt, place)?;
    }
    Ok(total)
}

// The shift from the sum and the curve's factor: ln(sum/factor)/time_step.
#[tactic(auto, unfolding(floats::specs::Answers::on_outcome, crate::specs::laws::FitSteps::shift_from))]
pub fn shift_from(sum: f64, factor: f64, dt: f64, place: u32) -> Result<f64, Refusal>
    ensures { result ≡ shift_from dt place sum factor }
{
    if factor <= 0.0 {
        return Err(Refusal {
            reason: Reason::Factor,
            place,
        });
    }
    let quotient = tested(sum / factor, place)?;
    let log = ln_at(quotient, place)?;
    tested(log / dt, place)
}

// Apart from `weigh`: the argument of the exp, what it multiplies and what is added differ, and one function would take all three.
// A node's state price discounted over the step: exp((shift + spacing × node) × −time_step) × price. Where `known` says so, e is the exp.
fn discounted(
    known: bool,
    e: f64,
    node: f64,
    price: f64,
    spacing: f64,
    dt: f64,
    shift: f64,
    place: u32,
) -> Result<f64, Refusal>
    requires { known ≡ true → exp_at (rate_argument spacing dt shift node) place ≡ Ok e }
    ensures { result ≡ discounted_of spacing dt shift place node price }
{
    if known {
        return tested(price * e, place);
    }
    let discount = exp_at((shift + spacing * node) * -dt, place)?;
    tested(price * discount, place)
}

// The position of a destination, `back` before the count that is reached.
pub fn spot(flat: bool, count: usize, back: usize) -> usize
    requires { back ≤ count }
    ensures { result ≡ spot_at flat count back }
{
    if flat { 0 } else { count - back }
}

// How many are reached once a position was written.
fn passed(count: usize, at: usize) -> usize
    requires { at + 1 < 2 ^ 64 }
    ensures { result ≡ past count at }
{
    count.max(at + 1)
}

// A contribution is stored as it is at a position that is not reached, else added to what is there.
#[tactic(auto, unfolding(floats::specs::Answers::on_outcome, crate::specs::laws::FitSteps::add_at, floats::specs::Answers::outcome_of))]
fn add_at(next: &mut [f64], at: usize, count: usize, x: f64, place: u32) -> Result<(), Refusal>
    requires { at < length next.old }
    ensures { outcome_of result next.new ≡ add_at place at count x next.old }
{
    if at < count {
        next[at] = tested(next[at] + x, place)?;
    } else {
        next[at] = x;
    }
    Ok(())
}

// The discounted price × probability, contributed.
#[tactic(auto, unfolding(floats::specs::Answers::on_outcome, crate::specs::laws::FitSteps::share_at, floats::specs::Answers::outcome_of))]
fn add_share(
    next: &mut [f64],
    at: usize,
    count: usize,
    price: f64,
    probability: f64,
    place: u32,
) -> Result<(), Refusal>
    requires { at < length next.old }
    ensures { outcome_of result next.new ≡ share_at place at count price probability next.old }
{
    let x = tested(price * probability, place)?;
    add_at(next, at, count, x, place)
}

// Down, middle, up: a node's three contributions. `before` and `after` count what is reached without the node and with it.
// The numbers are one node's, taken from the slices as they are read; nobody else has them together.
#[tactic(auto, unfolding(floats::specs::Answers::on_outcome, crate::specs::laws::FitSteps::add_three, floats::specs::Answers::outcome_of))]
fn add_three(
    next: &mut [f64],
    flat: bool,
    before: usize,
    after: usize,
    price: f64,
    down: f64,
    middle: f64,
    up: f64,
    place: u32,
) -> Result<(), Refusal>
    requires { (3 ≤ after) × (spot_at flat after 1 < length next.old) }
    ensures { outcome_of result next.new ≡ add_three place flat before after price down middle up next.old }
{
    let low = spot(flat, after, 3);
    let mid = spot(flat, after, 2);
    let high = spot(flat, after, 1);
    let first = passed(before, low);
    let second = passed(first, mid);
    add_share(next, low, before, price, down, place)?;
    add_share(next, mid, first, price, middle, place)?;
    add_share(next, high, second, price, up, place)
}

// A layer's contributions to the next row, nodes rising. The next row is lent, and what is read of a layer stays slices, as in `advance`.
pub fn onward(
    nodes: &[i32],
    probabilities: &[f64],
    row: &[f64],
    next: &mut [f64],
    flat: bool,
    spacing: f64,
    dt: f64,
    shift: f64,
    place: u32,
) -> Result<(), Refusal>
    requires { Layered flat (length next.old) nodes.now probabilities.now (length row.now) }
    ensures { outcome_of result next.new ≡ onward_at spacing dt shift place flat (start_of nodes.now) nodes.now probabilities.now row.now next.old }
{
    let mut es = [0.0; 64];
    let mut good = false;
    let mut r = nothing_below(nodes[1]);
    for i in 0..row.len() {
        good = discounts(nodes, row.len(), i, good, spacing, dt, shift, &mut es);
        let node = nodes[i * 2];
        let middle = nodes[i * 2 + 1];
        let e = es[i % 64];
        let price = discounted(good, e, node as f64, row[i], spacing, dt, shift, place)?;
        let after = reached(r, middle);
        let before = r.count;
        let count = after.count;
        add_three(
            next,
            flat,
            before,
            count,
            price,
            probabilities[i * 3],
            probabilities[i * 3 + 1],
            probabilities[i * 3 + 2],
            place,
        )?;
        r = after;
    }
    Ok(())
}
