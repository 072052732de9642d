// A node's transition: state, expectation and its quotient, the middle, error and probabilities.

ghost use Rattle.std.specs.Prelude.{◌≡◌};
ghost use Rattle.floats.specs.laws.Cuts.{IsWhole};
ghost use Rattle.lattice.specs.Transitions.{clamped, middle_of, transition_of};
ghost use Rattle.lattice.specs.laws.Bounds.{Within};
ghost use Rattle.lattice.specs.laws.Making.{shares, chances, centred, held};

use crate::{Middle, Step, Transition};
use floats::finite::tested;
use floats::max::greater;
use floats::round::near;
use floats::{Reason, Refusal};

impl Transition {
    // A middle node lies within ±1,000,000.
    pub const LIMIT: f64 = 1000000.0;
    // A probability further than this below 0 is refused.
    pub const TOLERANCE: f64 = 1.0e-12;
}

// Three numbers that are not below 0, divided by their total.
fn shares(middle: i32, d: f64, m: f64, u: f64, place: u32) -> Result<Transition, Refusal>
    requires { Within middle }
    ensures { result ≡ shares middle d m u place }
{
    let total = tested(d + m + u, place)?;
    Ok(Transition {
        down: middle - 1,
        middle,
        up: middle + 1,
        probability_down: tested(d / total, place)?,
        probability_middle: tested(m / total, place)?,
        probability_up: tested(u / total, place)?,
    })
}

// Clamping at 0 and dividing by the total.
fn clamped(middle: i32, down: f64, mid: f64, up: f64, place: u32) -> Result<Transition, Refusal>
    requires { Within middle }
    ensures { result ≡ clamped middle down mid up place }
{
    let d = greater(down, 0.0);
    let m = greater(mid, 0.0);
    let u = greater(up, 0.0);
    shares(middle, d, m, u, place)
}

// Probabilities with the error from the rounded middle.
fn probabilities(middle: i32, error: f64, step: &Step) -> Result<Transition, Refusal>
    requires { Within middle }
    ensures { result ≡ chances middle error step.now.denominator step.now.scale step.now.place }
{
    let place = step.place;
    let term = error * error / step.denominator;
    let base = 1.0 / 6.0 + term;
    let skew = error / step.scale;
    let down = tested(base - skew, place)?;
    let mid = tested(2.0 / 3.0 - term * 2.0, place)?;
    let up = tested(base + skew, place)?;
    if down < -Transition::TOLERANCE
        || mid < -Transition::TOLERANCE
        || up < -Transition::TOLERANCE
    {
        return Err(Refusal {
            reason: Reason::Probability,
            place,
        });
    }
    clamped(middle, down, mid, up, place)
}

// From the middle on: error and probabilities.
fn centred(m: Middle, step: &Step) -> Result<Transition, Refusal>
    requires { Within m.node }
    ensures { result ≡ centred m step.now.new_spacing step.now.denominator step.now.scale step.now.place }
{
    let error = m.expectation - step.new_spacing * m.middle;
    probabilities(m.node, error, step)
}

// 23, else the middle, as a node number too.
fn held(expectation: f64, middle: f64, place: u32) -> Result<Middle, Refusal>
    requires { IsWhole middle }
    ensures { result ≡ held expectation middle place }
{
    if middle < -Transition::LIMIT || middle > Transition::LIMIT {
        return Err(Refusal {
            reason: Reason::NodeTooFar,
            place,
        });
    }
    Ok(Middle {
        expectation,
        middle,
        node: middle as i32,
    })
}

// A node's middle in the next layer: state, expectation and its quotient, rounded.
pub fn middle_of(
    spacing: f64,
    decay: f64,
    new_spacing: f64,
    place: u32,
    node: i32,
) -> Result<Middle, Refusal>
    ensures { result ≡ middle_of spacing decay new_spacing place node }
{
    let state = spacing * f64::from(node);
    let expectation = state * decay;
    let quotient = tested(expectation / new_spacing, place)?;
    held(expectation, near(quotient), place)
}

// A node's transition to the next layer.
pub fn transition_of(step: &Step, node: i32) -> Result<Transition, Refusal>
    ensures { result ≡ transition_of step.now node }
{
    let m = middle_of(step.spacing, step.decay, step.new_spacing, step.place, node)?;
    centred(m, step)
}
