// Growing the tree by one layer in the lent slices.

ghost use Rattle.std.specs.Prelude.{◌≡◌, ◌+◌, ◌*◌, ◌^◌, ◌<◌, ◌≤◌, length, drop};
ghost use Rattle.lattice.specs.Layers.{fits};
ghost use Rattle.lattice.specs.Lattice.{spacing_of, step_of};
ghost use Rattle.lattice.specs.laws.Stored.{numbers_in};
ghost use Rattle.lattice.specs.laws.Bounds.{AllWithin};
ghost use Rattle.lattice.specs.laws.Counting.{middles_from};
ghost use Rattle.lattice.specs.laws.Middles.{Upright};
ghost use Rattle.lattice.specs.laws.Laid.{front_nodes};
ghost use Rattle.lattice.specs.laws.Growing.{Front, grown_next, room_left};
ghost use Rattle.lattice.specs.laws.MadeSteps.{step_with};
ghost use Rattle.lattice.specs.laws.NextLaid.{room_of, LaidNext};
ghost use Rattle.lattice.specs.laws.Grown.{grown_from};
ghost use Rattle.layers.specs.laws.Known.{Known, Before, KnownCount, SameWhere};
ghost use Rattle.layers.specs.laws.Behind.{GrownBehind};

use crate::layers::{count_next, fill, spread};
use floats::finite::tested;
use floats::{Reason, Refusal};
use lattice::{NextLayer, Rows, Step};
use rounded::sqrt::sqrt_at;

// The layer before: how many nodes it has, and the spacing and variance that it was made with.
#[derive(Clone, Copy)]
pub struct LayerBefore {
    pub count: usize,
    pub spacing: f64,
    pub variance: f64,
}

// sqrt(variance × 3).
pub fn spacing_of(variance: f64, place: u32) -> Result<f64, Refusal>
    ensures { result ≡ spacing_of variance place }
{
    sqrt_at(tested(variance * 3.0, place)?, place)
}

// The two divisors beside the new spacing.
fn divisors(
    spacing: f64,
    decay: f64,
    variance: f64,
    new_spacing: f64,
    place: u32,
) -> Result<Step, Refusal>
    ensures { result ≡ step_with spacing decay variance new_spacing place }
{
    let denominator = tested(variance * 6.0, place)?;
    let scale = tested(new_spacing * 2.0, place)?;
    Ok(Step {
        spacing,
        decay,
        new_spacing,
        denominator,
        scale,
        place,
    })
}

// 22, then the new spacing and the two divisors.
fn step_of(spacing: f64, decay: f64, variance: f64, place: u32) -> Result<Step, Refusal>
    ensures { result ≡ step_of spacing decay variance place }
{
    if variance <= Step::EPSILON {
        return Err(Refusal {
            reason: Reason::NoVariance,
            place,
        });
    }
    let new_spacing = spacing_of(variance, place)?;
    divisors(spacing, decay, variance, new_spacing, place)
}

// Whether a layer of `next` nodes behind `count` others fits slices and rows of these lengths.
pub fn has_room(nodes: usize, probabilities: usize, rows: Rows, count: usize, next: usize) -> bool
    requires { count + next < 2 ^ 62 }
    ensures { result ≡ fits (room_of nodes probabilities rows.first rows.second) (count + next) next }
{
    let all = count + next;
    2 * all <= nodes && 3 * all <= probabilities && next <= rows.first && next <= rows.second
}

// The next layer of one whose middles are there: counted, its room tried, then laid behind it.
fn lay_next(
    spacing: f64,
    step: u32,
    count: usize,
    nodes: &mut [i32],
    probabilities: usize,
    rows: Rows,
) -> Result<NextLayer, Refusal>
    requires { (0 < count) × (2 * count ≤ length nodes.old) × AllWithin (middles_from nodes.old 0 count) × (step + 1 < 2 ^ 32) }
    ensures { LaidNext (room_of (length nodes.old) probabilities rows.first rows.second) spacing step count result nodes.old nodes.new }
{
    let reached = count_next(count, nodes);
    let next = reached.count;
    if has_room(nodes.len(), probabilities, rows, count, next) {
        spread(count, nodes);
        return Ok(NextLayer {
            spacing,
            count: next,
        });
    }
    Err(Refusal {
        reason: Reason::NoRoom,
        place: step + 1,
    })
}

// Whether two floats above 0 have the same bits.
fn same_number(a: f64, b: f64) -> bool
    ensures { SameWhere result a b }
{
    if 0.0 < a {
        if 0.0 < b {
            return a == b;
        }
    }
    false
}

// How many of the nodes of the layer before have the transitions of this spacing and variance: all or none.
fn known_count(before: LayerBefore, spacing: f64, variance: f64) -> usize
    ensures { KnownCount before.count before.spacing spacing before.variance variance result }
{
    if same_number(spacing, before.spacing) {
        if same_number(variance, before.variance) {
            return before.count;
        }
    }
    0
}

// The layer behind `before` nodes by a step that is made. The first `known` of those have its transitions.
fn grow_by(
    step: &Step,
    count: usize,
    nodes: &mut [i32],
    probabilities: &mut [f64],
    rows: Rows,
    before: usize,
    known: usize,
) -> Result<NextLayer, Refusal>
    requires front { (Front count step.now.spacing step.now.decay (drop (before * 2) nodes.old) (drop (before * 3) probabilities.old)) × Upright step.now × (step.now.place + 1 < 2 ^ 32) }
    requires known_le_before { (known ≤ before) × Known step.now known nodes.old probabilities.old }
    ensures { GrownBehind (grown_from (room_left (drop (before * 2) nodes.old) (drop (before * 3) probabilities.old) rows.first rows.second) step.now (numbers_in (front_nodes count (drop (before * 2) nodes.old)))) before count result nodes.old nodes.new probabilities.old probabilities.new }
{
    fill(step, count, nodes, probabilities, before, known)?;
    let pairs = before * 2;
    let threes = probabilities.len() - before * 3;
    lay_next(
        step.new_spacing,
        step.place,
        count,
        &mut nodes[pairs..],
        threes,
        rows,
    )
}

// The layer behind the one before gets its middles and probabilities, and the next one is laid behind it.
pub fn grow(
    layer: NextLayer,
    decay: f64,
    variance: f64,
    step: u32,
    nodes: &mut [i32],
    probabilities: &mut [f64],
    rows: Rows,
    before: LayerBefore,
) -> Result<NextLayer, Refusal>
    requires front { (Front layer.count layer.spacing decay (drop (before.count * 2) nodes.old) (drop (before.count * 3) probabilities.old)) × (step + 1 < 2 ^ 32) }
    requires before { Before decay before.spacing before.variance before.count nodes.old probabilities.old }
    ensures { GrownBehind (grown_next (room_left (drop (before.count * 2) nodes.old) (drop (before.count * 3) probabilities.old) rows.first rows.second) decay layer.spacing (numbers_in (front_nodes layer.count (drop (before.count * 2) nodes.old))) step variance) before.count layer.count result nodes.old nodes.new probabilities.old probabilities.new }
{
    let made = step_of(layer.spacing, decay, variance, step)?;
    let known = known_count(before, layer.spacing, variance);
    grow_by(
        &made,
        layer.count,
        nodes,
        probabilities,
        rows,
        before.count,
        known,
    )
}
