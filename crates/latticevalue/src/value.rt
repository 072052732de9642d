// lattice_value: the tree's value of a grid, and the nodes of all layers.
// What is lent stays in slices of its own: of a struct of `&mut`s each contract would have to say that its borrows stay.

ghost use Rattle.std.specs.Prelude.{◌≡◌, ◌+◌, ◌^◌, ◌<◌, ◌≤◌, length};
ghost use Rattle.std.specs.Float.{binary64};
ghost use Rattle.std.specs.Float.Ieee.{div};
ghost use Rattle.terms.specs.Numbers.{float};
ghost use Rattle.terms.specs.Curve.{curve_over};
ghost use Rattle.terms.specs.Market.{model_in};
ghost use Rattle.floats.specs.Answers.{when_finite, follow};
ghost use Rattle.lattice.specs.laws.Growing.{room_left};
ghost use Rattle.rollback.specs.Walking.{steps_of};
ghost use Rattle.treebasedbondpricer.specs.laws.FittedIn.{fitted_over};
ghost use Rattle.treebasedbondpricer.specs.laws.Valued.{tree_of, walked};

use bondevents::BondEventGrid;
use bondevents::marks::{step_marks, step_prices};
use floats::Refusal;
use latticetransitions::transitions::node_count;
use rollback::walking::{Events, Lattice, root_value};
use terms::market::{Curve, HullWhite};
use treebasedbondpricer::TreeValue;
use treebasedbondpricer::fitted::{FittedTree, fitted_tree};

// Apart from spreads' and spreadtable's: what follows the fit would be a closure over the two lent rows, whose clause would have
// to say of any lattice what it makes of it.
// Fit, then walk. Counts, spacings and shifts have room for the steps.
fn value_over(
    maturity: f64,
    steps: u32,
    events: Events<'_>,
    model: HullWhite<'_>,
    spread: f64,
    curve: Curve<'_>,
    counts: &mut [usize],
    spacings: &mut [f64],
    shifts: &mut [f64],
    nodes: &mut [i32],
    probabilities: &mut [f64],
    first: &mut [f64],
    second: &mut [f64],
) -> Result<TreeValue, Refusal>
    requires steps_nonzero { (0 < steps) × (steps ≤ 512) × (length events.cashflows.now ≡ 513) × (length events.marks.now ≡ 513) × (length events.prices.now ≡ 1026) }
    requires counts_len { (length counts.old ≡ steps + 1) × (length spacings.old ≡ steps) × (length shifts.old ≡ steps) }
    ensures { result ≡ tree_of (follow (when_finite (div binary64 maturity (float steps)) 0 λ dt. fitted_over (curve_over curve.entry.times.now curve.entry.factors.now) (model_in model) (room_left nodes.old probabilities.old (length first.old) (length second.old)) steps dt) λ f. walked spread events.entry.cashflows.now (steps_of events.entry) f) }
{
    let FittedTree { dt, flat } = fitted_tree(
        maturity,
        steps,
        model,
        curve,
        counts,
        spacings,
        shifts,
        nodes,
        probabilities,
        first,
        second,
    )?;
    let lattice = Lattice {
        nodes,
        probabilities,
        counts,
        spacings,
        shifts,
        flat,
        dt,
    };
    let value = root_value(lattice, events, spread, first, second)?;
    Ok(TreeValue {
        value,
        nodes: node_count(counts),
    })
}

// The root's value is the answer.
pub fn lattice_value(
    grid: BondEventGrid,
    model: HullWhite<'_>,
    spread: f64,
    curve: Curve<'_>,
    nodes: &mut [i32],
    probabilities: &mut [f64],
    first: &mut [f64],
    second: &mut [f64],
) -> Result<TreeValue, Refusal>
    requires { (0 < grid.steps) × (grid.steps ≤ 512) }
    ensures { result ≡ tree_of (follow (when_finite (div binary64 grid.maturity_time (float grid.steps)) 0 λ dt. fitted_over (curve_over curve.entry.times.now curve.entry.factors.now) (model_in model) (room_left nodes.old probabilities.old (length first.old) (length second.old)) grid.steps dt) λ f. walked spread grid.cashflows grid.calls f) }
{
    let maturity = grid.maturity_time;
    let steps = grid.steps;
    let marks = step_marks(&grid.calls);
    let prices = step_prices(&grid.calls);
    let events = Events {
        cashflows: &grid.cashflows,
        marks: &marks,
        prices: &prices,
    };
    let mut counts = [0usize; 513];
    let mut spacings = [0.0; 512];
    let mut shifts = [0.0; 512];
    let n = steps as usize;
    value_over(
        maturity,
        steps,
        events,
        model,
        spread,
        curve,
        &mut counts[..n + 1],
        &mut spacings[..n],
        &mut shifts[..n],
        nodes,
        probabilities,
        first,
        second,
    )
}
