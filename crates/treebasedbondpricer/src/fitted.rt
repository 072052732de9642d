// The tree before the walk: time_step, layers and shifts. Nothing of it reads the calls, the cashflows or the spread. The curve is that over the times and factors of its pillars.
// What is lent stays in slices of its own: of a struct of `&mut`s each contract would have to say that its borrows stay.

ghost use Rattle.std.specs.Prelude.{◌≡◌, ◌+◌, ◌<◌, ◌≤◌, length};
ghost use Rattle.std.specs.Float.{binary64};
ghost use Rattle.std.specs.Float.Ieee.{div};
ghost use Rattle.terms.specs.Numbers.{float};
ghost use Rattle.terms.specs.Curve.{curve_over};
ghost use Rattle.terms.specs.Market.{model_in};
ghost use Rattle.floats.specs.Answers.{when_finite};
ghost use Rattle.lattice.specs.laws.Growing.{room_left};
ghost use Rattle.treebasedbondpricer.specs.laws.FittedIn.{FitsTree, fitted_with, fitted_over};

use floats::Refusal;
use floats::finite::tested;
use forwardinduction::fitting::fit_tree;
use hullwhite::variance::transition_variances;
use lattice::Rows;
use latticetransitions::flat::all_flat;
use latticetransitions::transitions::lattice_transitions;
use terms::market::{Curve, HullWhite};

// A fitted tree: time_step, and whether the tree is flat. Its layers stand in the lent slices, counts, spacings and shifts beside them.
#[derive(Clone, Copy, Debug)]
pub struct FittedTree {
    pub dt: f64,
    pub flat: bool,
}

// Transitions, then the fit.
fn fitted_with(
    dt: f64,
    alpha: f64,
    curve: Curve<'_>,
    variances: &[f64],
    counts: &mut [usize],
    spacings: &mut [f64],
    shifts: &mut [f64],
    nodes: &mut [i32],
    probabilities: &mut [f64],
    first: &mut [f64],
    second: &mut [f64],
) -> Result<FittedTree, Refusal>
    requires variances_nonzero { (0 < length variances.now) × (length variances.now ≤ 512) }
    requires counts_len { (length counts.old ≡ length variances.now + 1) × (length spacings.old ≡ length variances.now) × (length shifts.old ≡ length variances.now) }
    ensures { FitsTree (fitted_with (curve_over curve.entry.times.now curve.entry.factors.now) (room_left nodes.old probabilities.old (length first.old) (length second.old)) alpha dt variances.now) (length first.old) (length second.old) counts.new spacings.new shifts.new nodes.new probabilities.new result }
{
    let rows = Rows {
        first: first.len(),
        second: second.len(),
    };
    lattice_transitions(
        alpha,
        dt,
        variances,
        counts,
        spacings,
        nodes,
        probabilities,
        rows,
    )?;
    let flat = all_flat(variances);
    fit_tree(
        nodes,
        probabilities,
        counts,
        spacings,
        flat,
        curve,
        dt,
        first,
        second,
        shifts,
    )?;
    Ok(FittedTree { dt, flat })
}

// Variances, transitions, then the fit.
fn fitted_over(
    steps: u32,
    dt: f64,
    model: HullWhite<'_>,
    curve: Curve<'_>,
    variances: &mut [f64],
    counts: &mut [usize],
    spacings: &mut [f64],
    shifts: &mut [f64],
    nodes: &mut [i32],
    probabilities: &mut [f64],
    first: &mut [f64],
    second: &mut [f64],
) -> Result<FittedTree, Refusal>
    requires steps_nonzero { (0 < steps) × (steps ≤ 512) × (length variances.old ≡ steps) }
    requires counts_len { (length counts.old ≡ steps + 1) × (length spacings.old ≡ steps) × (length shifts.old ≡ steps) }
    ensures { FitsTree (fitted_over (curve_over curve.entry.times.now curve.entry.factors.now) (model_in model) (room_left nodes.old probabilities.old (length first.old) (length second.old)) steps dt) (length first.old) (length second.old) counts.new spacings.new shifts.new nodes.new probabilities.new result }
{
    transition_variances(model, steps, dt, variances)?;
    fitted_with(
        dt,
        model.alpha,
        curve,
        variances,
        counts,
        spacings,
        shifts,
        nodes,
        probabilities,
        first,
        second,
    )
}

// time_step = T/steps, then the tree.
pub fn fitted_tree(
    maturity: f64,
    steps: u32,
    model: HullWhite<'_>,
    curve: Curve<'_>,
    counts: &mut [usize],
    spacings: &mut [f64],
    shifts: &mut [f64],
    nodes: &mut [i32],
    probabilities: &mut [f64],
    first: &mut [f64],
    second: &mut [f64],
) -> Result<FittedTree, Refusal>
    requires steps_nonzero { (0 < steps) × (steps ≤ 512) }
    requires counts_len { (length counts.old ≡ steps + 1) × (length spacings.old ≡ steps) × (length shifts.old ≡ steps) }
    ensures { FitsTree (when_finite (div binary64 maturity (float steps)) 0 λ dt. fitted_over (curve_over curve.entry.times.now curve.entry.factors.now) (model_in model) (room_left nodes.old probabilities.old (length first.old) (length second.old)) steps dt) (length first.old) (length second.old) counts.new spacings.new shifts.new nodes.new probabilities.new result }
{
    let dt = tested(maturity / (steps as f64), 0)?;
    let mut variances = [0.0; 512];
    fitted_over(
        steps,
        dt,
        model,
        curve,
        &mut variances[..steps as usize],
        counts,
        spacings,
        shifts,
        nodes,
        probabilities,
        first,
        second,
    )
}
