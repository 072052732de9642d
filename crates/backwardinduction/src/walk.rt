// Walking back, one layer: continuation, the lower of it and the call price, the higher of that and the put price, then the step's cashflow.

ghost use Rattle.std.specs.Prelude.{◌≡◌, true, ◌+◌, ◌*◌, ◌≤◌, ◌<◌, length, Ok};
ghost use Rattle.backwardinduction.specs.Walk as Walk;
ghost use Rattle.lattice.specs.laws.Positions.{spot_at, start_of, Layered};
ghost use Rattle.floats.specs.Answers.{outcome_of};
ghost use Rattle.elementary.specs.laws.Rows.{Filled};
ghost use Rattle.backwardinduction.specs.laws.Discounts.{exponent_of, exponents_from, Discounts, Ahead};
ghost use Rattle.backwardinduction.specs.laws.WalkSteps.{sum_of, discount_with, worth_of, value_with, rolled_at};

use bondevents::{CallStep, Exercise};
use elementary::exp::exp_at;
use elementary::exps::exp_row;
use floats::Refusal;
use floats::finite::tested;
use floats::max::greater;
use floats::min::lesser;
use forwardinduction::exps::arguments;
use forwardinduction::fit::spot;
use lattice::reach::{nothing_below, reached};

// What the short rate of a step is made of, and time_step.
#[derive(Clone, Copy)]
pub struct Rates {
    pub spacing: f64,
    pub dt: f64,
    pub shift: f64,
    pub spread: f64,
}

// What a step of the walk reads beside the next row, the same at all nodes: the short rate's parts, the step's call and put, and its cashflow; whether the tree is flat, and the place of a refusal.
#[derive(Clone, Copy)]
pub struct Reads {
    pub rates: Rates,
    pub call: CallStep,
    pub cashflow: f64,
    pub flat: bool,
    pub place: u32,
}

// From 0, down, middle, up: each value × its probability.
#[tactic(auto, using(crate::specs::laws::Discounts::sum_is), unfolding(floats::specs::Answers::on_outcome))]
fn summed(
    low: f64,
    down: f64,
    mid: f64,
    middle: f64,
    high: f64,
    up: f64,
    place: u32,
) -> Result<f64, Refusal>
    ensures { result ≡ sum_of low down mid middle high up place }
{
    tested(((0.0 + low * down) + mid * middle) + high * up, place)
}

// A node's short rate × −time_step; the spread joins the short rate only here.
fn exponent(rates: Rates, node: f64) -> f64
    ensures { result ≡ exponent_of rates node }
{
    ((rates.shift + rates.spacing * node) + rates.spread) * -rates.dt
}

// The exponents of the nodes from `from` on.
fn exponents(rates: Rates, nodes: &[i32], from: usize, xs: &mut [f64])
    requires { (from + length xs.old) * 2 ≤ length nodes.now }
    ensures { Filled (exponents_from rates nodes.now from) xs.old xs.new (length xs.old) }
{
    let n = xs.len();
    arguments(nodes, from, n, |node| exponent(rates, node), xs);
}

// The discount factors of the nodes from `from` on, at most 64, side by side. Where it says false, nothing is said of es.
fn discounts(rates: Rates, nodes: &[i32], from: usize, es: &mut [f64]) -> bool
    requires { (length es.old ≤ 64) × ((from + length es.old) * 2 ≤ length nodes.now) }
    ensures { Discounts result rates nodes.now from es.new }
{
    let n = es.len();
    let mut xs = [0.0; 64];
    let mut ks = [0.0; 64];
    let mut rs = [0.0; 64];
    exponents(rates, nodes, from, &mut xs[..n]);
    exp_row(&xs[..n], es, &mut ks[..n], &mut rs[..n])
}

// At the first node of each 64 their discount factors into es; at the others es stays.
fn refill(known: bool, rates: Rates, nodes: &[i32], count: usize, i: usize, es: &mut [f64]) -> bool
    requires { (length es.old ≡ 64) × (i < count) × (length nodes.now ≡ count * 2) × Ahead known rates nodes.now count i i es.old }
    ensures { Ahead result rates nodes.now count i (i + 1) es.new }
{
    if i % 64 != 0 {
        return known;
    }
    let left = count - i;
    if left < 64 {
        return discounts(rates, nodes, i, &mut es[..left]);
    }
    discounts(rates, nodes, i, es)
}

// exp(short rate × −time_step), or the factor where it is known. The flag is a part's: an Option for each node would be made of it
// and at once taken apart.
#[tactic(auto, using(crate::specs::laws::Discounts::discount_is), unfolding(floats::specs::Answers::on_outcome))]
fn discount(rates: Rates, node: f64, place: u32, known: bool, factor: f64) -> Result<f64, Refusal>
    requires { known ≡ true → discount_with rates node place ≡ Ok factor }
    ensures { result ≡ discount_with rates node place }
{
    if known {
        return Ok(factor);
    }
    exp_at(exponent(rates, node), place)
}

// The lower of continuation and call price.
#[tactic(auto, unfolding(floats::specs::Answers::on_outcome, floats::specs::Extremes::min_of))]
fn lower(call: Exercise, continuation: f64) -> f64
    ensures { result ≡ Walk.called call continuation }
{
    if call.marked {
        return lesser(continuation, call.price);
    }
    continuation
}

// The lower of continuation and call price, then the higher of that and the put price.
#[tactic(auto, unfolding(floats::specs::Answers::on_outcome, floats::specs::Extremes::max_of))]
fn exercised(step: CallStep, continuation: f64) -> f64
    ensures { result ≡ Walk.exercised step continuation }
{
    let held = lower(step.call, continuation);
    if step.put.marked {
        return greater(held, step.put.price);
    }
    held
}

// Continuation, what is exercised, then the cashflow.
#[tactic(auto, unfolding(floats::specs::Answers::on_outcome, crate::specs::laws::WalkSteps::worth_of))]
fn worth(reads: Reads, expected: f64, factor: f64) -> Result<f64, Refusal>
    ensures { result ≡ worth_of reads.call reads.cashflow reads.place expected factor }
{
    let continuation = tested(expected * factor, reads.place)?;
    let held = exercised(reads.call, continuation);
    tested(held + reads.cashflow, reads.place)
}

// A node's value from the next row, whose nodes reached are counted with this node's. Nine parameters: those behind `count` are
// one node's, taken from the slices as they are read, and nobody else has them together.
#[tactic(auto, unfolding(floats::specs::Answers::on_outcome, crate::specs::laws::WalkSteps::value_with))]
fn node_value(
    reads: Reads,
    count: usize,
    node: f64,
    down: f64,
    middle: f64,
    up: f64,
    known: bool,
    factor: f64,
    next: &[f64],
) -> Result<f64, Refusal>
    requires { (3 ≤ count) × (spot_at reads.flat count 1 < length next.now) × (known ≡ true → discount_with reads.rates node reads.place ≡ Ok factor) }
    ensures { result ≡ value_with reads.rates reads.call reads.cashflow reads.place reads.flat count node down middle up next.now }
{
    let low = spot(reads.flat, count, 3);
    let mid = spot(reads.flat, count, 2);
    let high = spot(reads.flat, count, 1);
    let expected = summed(
        next[low],
        down,
        next[mid],
        middle,
        next[high],
        up,
        reads.place,
    )?;
    let factor = discount(reads.rates, node, reads.place, known, factor)?;
    worth(reads, expected, factor)
}

// A layer's values from the next row, nodes rising.
pub fn roll(
    nodes: &[i32],
    probabilities: &[f64],
    next: &[f64],
    row: &mut [f64],
    reads: Reads,
) -> Result<(), Refusal>
    requires { Layered reads.flat (length next.now) nodes.now probabilities.now (length row.old) }
    ensures { outcome_of result row.new ≡ rolled_at reads.rates reads.call reads.cashflow reads.place reads.flat next.now (start_of nodes.now) 0 nodes.now probabilities.now row.old }
{
    let mut r = nothing_below(nodes[1]);
    let mut es = [0.0; 64];
    let mut known = false;
    for i in 0..row.len() {
        known = refill(known, reads.rates, nodes, row.len(), i, &mut es);
        let node = nodes[i * 2];
        let middle = nodes[i * 2 + 1];
        let after = reached(r, middle);
        let count = after.count;
        row[i] = node_value(
            reads,
            count,
            node as f64,
            probabilities[i * 3],
            probabilities[i * 3 + 1],
            probabilities[i * 3 + 2],
            known,
            es[i % 64],
            next,
        )?;
        r = after;
    }
    Ok(())
}
