// The fit over all layers: a shift per step, the two lent rows alternating.
// What is lent stays in slices of its own: of a struct of `&mut`s each contract would have to say that its borrows stay.
// The layers that are read stay slices too: rollback's `Lattice` holds the shifts, which are lent here.

ghost use Rattle.std.specs.Prelude.{◌≡◌, ◌+◌, ◌^◌, ◌<◌, ◌≤◌, length, get_or};
ghost use Rattle.terms.specs.Curve.{curve_over};
ghost use Rattle.forwardinduction.specs.Fit.{shifts_from, fitted};
ghost use Rattle.lattice.specs.Lattice.{root_layer};
ghost use Rattle.lattice.specs.laws.Stored.{numbers_in};
ghost use Rattle.lattice.specs.laws.Positions.{Layered};
ghost use Rattle.forwardinduction.specs.laws.Advances.{step_at};
ghost use Rattle.lattice.specs.laws.Laid.{front_nodes, layers_in, Laid};
ghost use Rattle.forwardinduction.specs.laws.Found.{Found};
ghost use Rattle.forwardinduction.specs.laws.Fitting.{moved_of, row_in};

use crate::layer::{advance, layer_shift};
use crate::rows::current;
use floats::Refusal;
use terms::market::Curve;

// One step: the shift of the current row, then the other row.
#[tactic(auto, unfolding(floats::specs::Answers::on_outcome, crate::specs::laws::Advances::step_at, floats::specs::Answers::outcome_of))]
fn fit_step(
    nodes: &[i32],
    probabilities: &[f64],
    count: usize,
    spacing: f64,
    flat: bool,
    curve: Curve<'_>,
    dt: f64,
    step: u32,
    first: &mut [f64],
    second: &mut [f64],
) -> Result<f64, Refusal>
    requires count_in_bounds { (count ≤ length first.old) × (count ≤ length second.old) }
    requires layered { (Layered flat (length first.old) nodes.now probabilities.now count) × (Layered flat (length second.old) nodes.now probabilities.now count) }
    requires step_bound { step + 1 < 2 ^ 32 }
    ensures { moved_of result (record { first = first.exit.now; second = second.new }) ≡ step_at (curve_over curve.entry.times.now curve.entry.factors.now) dt step flat count spacing nodes.now probabilities.now (record { first = first.entry.now; second = second.old }) }
{
    let row = current(first, second, step, count);
    let shift = layer_shift(nodes, row, spacing, curve, dt, step)?;
    advance(
        nodes,
        probabilities,
        first,
        second,
        count,
        flat,
        spacing,
        dt,
        shift,
        step,
    )?;
    Ok(shift)
}

// The shifts of the layers from `step` on, the first one's state prices standing in the current row.
pub fn fit(
    nodes: &[i32],
    probabilities: &[f64],
    counts: &[usize],
    spacings: &[f64],
    flat: bool,
    curve: Curve<'_>,
    dt: f64,
    step: u32,
    first: &mut [f64],
    second: &mut [f64],
    shifts: &mut [f64],
) -> Result<(), Refusal>
    requires laid { Laid flat (length first.old) (length second.old) counts.now spacings.now nodes.now probabilities.now }
    requires shifts_len { (length shifts.old ≡ length spacings.now) × (step + length spacings.now + 1 < 2 ^ 32) }
    ensures { Found (shifts_from (curve_over curve.entry.times.now curve.entry.factors.now) dt step (layers_in flat counts.now spacings.now nodes.now probabilities.now) (row_in step (get_or counts.now 0 0) nodes.now (record { first = first.entry.now; second = second.old }))) result shifts.new }
{
    if spacings.len() == 0 {
        return Ok(());
    }
    let count = counts[0];
    let pairs = count * 2;
    let threes = count * 3;
    let shift = fit_step(
        &nodes[..pairs],
        &probabilities[..threes],
        count,
        spacings[0],
        flat,
        curve,
        dt,
        step,
        first,
        second,
    )?;
    shifts[0] = shift;
    fit(
        &nodes[pairs..],
        &probabilities[threes..],
        &counts[1..],
        &spacings[1..],
        flat,
        curve,
        dt,
        step + 1,
        first,
        second,
        &mut shifts[1..],
    )
}

// The shifts of the whole tree: the root's state price is 1.
pub fn fit_tree(
    nodes: &[i32],
    probabilities: &[f64],
    counts: &[usize],
    spacings: &[f64],
    flat: bool,
    curve: Curve<'_>,
    dt: f64,
    first: &mut [f64],
    second: &mut [f64],
    shifts: &mut [f64],
) -> Result<(), Refusal>
    requires laid { Laid flat (length first.old) (length second.old) counts.now spacings.now nodes.now probabilities.now }
    requires shifts_len { (length shifts.old ≡ length spacings.now) × (length spacings.now + 1 < 2 ^ 32) }
    requires counts_value { (get_or counts.now 0 0 ≡ 1) × (numbers_in (front_nodes 1 nodes.now) ≡ root_layer) }
    ensures { Found (fitted (curve_over curve.entry.times.now curve.entry.factors.now) dt (layers_in flat counts.now spacings.now nodes.now probabilities.now)) result shifts.new }
{
    first[0] = 1.0;
    fit(
        nodes,
        probabilities,
        counts,
        spacings,
        flat,
        curve,
        dt,
        0,
        first,
        second,
        shifts,
    )
}
