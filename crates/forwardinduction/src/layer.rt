// The fit of one step over the two lent rows: the shift, and the next row beside the current one.
// What is lent stays in slices of its own: of a struct of `&mut`s each contract would have to say that its borrows stay.
// The layers that are read stay slices too: rollback's `Lattice` holds the shifts, which are lent here.

ghost use Rattle.std.specs.Prelude.{◌≡◌, ◌*◌, ◌+◌, ◌^◌, ◌<◌, ◌≤◌, length};
ghost use Rattle.terms.specs.Curve.{curve_over};
ghost use Rattle.forwardinduction.specs.Fit.{shift_of};
ghost use Rattle.lattice.specs.laws.Stored.{numbers_in, row_of};
ghost use Rattle.lattice.specs.laws.Positions.{start_of, Layered};
ghost use Rattle.lattice.specs.laws.Rows.{Both};
ghost use Rattle.floats.specs.Answers.{outcome_of};
ghost use Rattle.forwardinduction.specs.laws.Advances.{layer_shift, advanced_at};

use crate::fit::{onward, shift_from, weighted_sum};
use floats::Refusal;
use floats::finite::tested;
use terms::curve::curve_at;
use terms::market::Curve;

// The shift of a step: the curve is read at time_step × (step + 1).
#[tactic(auto, unfolding(floats::specs::Answers::on_outcome, crate::specs::Fit::shift_of, crate::specs::laws::FitSteps::shift_from))]
fn shift_of(curve: Curve<'_>, dt: f64, place: u32, sum: f64) -> Result<f64, Refusal>
    requires { place + 1 < 2 ^ 32 }
    ensures { result ≡ shift_of (curve_over curve.entry.times.now curve.entry.factors.now) dt place sum }
{
    let next = place + 1;
    let time = tested(dt * next as f64, place)?;
    let factor = curve_at(curve.times, curve.factors, time, place)?;
    shift_from(sum, factor, dt, place)
}

// The weighted sum of a layer's state prices, then its shift.
pub fn layer_shift(
    nodes: &[i32],
    row: &[f64],
    spacing: f64,
    curve: Curve<'_>,
    dt: f64,
    place: u32,
) -> Result<f64, Refusal>
    requires { (length nodes.now ≡ length row.now * 2) × (place + 1 < 2 ^ 32) }
    ensures { result ≡ layer_shift (curve_over curve.entry.times.now curve.entry.factors.now) dt place spacing (row_of (numbers_in nodes.now) row.now) }
{
    let sum = weighted_sum(nodes, row, spacing, dt, place)?;
    shift_of(curve, dt, place, sum)
}

// The current row's contributions into the other: at an even step from the first to the second.
#[tactic(auto, unfolding(floats::specs::Answers::on_outcome, crate::specs::laws::Advances::advanced_at, floats::specs::Answers::outcome_of))]
pub fn advance(
    nodes: &[i32],
    probabilities: &[f64],
    first: &mut [f64],
    second: &mut [f64],
    count: usize,
    flat: bool,
    spacing: f64,
    dt: f64,
    shift: f64,
    step: u32,
) -> Result<(), Refusal>
    requires count_in_bounds { (count ≤ length first.old) × (count ≤ length second.old) }
    requires layered { (Layered flat (length first.old) nodes.now probabilities.now count) × (Layered flat (length second.old) nodes.now probabilities.now count) }
    ensures { outcome_of result (record { first = first.exit.now; second = second.new }) ≡ advanced_at spacing dt shift step flat count nodes.now probabilities.now (record { first = first.entry.now; second = second.old }) }
{
    if step % 2 == 0 {
        return onward(
            nodes,
            probabilities,
            &first[..count],
            second,
            flat,
            spacing,
            dt,
            shift,
            step,
        );
    }
    onward(
        nodes,
        probabilities,
        &second[..count],
        first,
        flat,
        spacing,
        dt,
        shift,
        step,
    )
}
