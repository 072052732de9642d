// The layers of a tree that isn't flat, each in front of what is left of the lent slices.
// What is lent stays in slices of its own: of a struct of `&mut`s each contract would have to say that its borrows stay.

ghost use Rattle.std.specs.Prelude.{◌≡◌, false, ◌+◌, ◌*◌, ◌^◌, ◌<◌, ◌≤◌, T, length, drop};
ghost use Rattle.std.specs.Float.Ieee.{le};
ghost use Rattle.floats.specs.Answers.{plus_zero};
ghost use Rattle.lattice.specs.Lattice.{decay_of, grown, curved, root_layer};
ghost use Rattle.lattice.specs.laws.Stored.{numbers_in};
ghost use Rattle.lattice.specs.laws.Laid.{front_nodes};
ghost use Rattle.lattice.specs.laws.Growing.{Front, room_left};
ghost use Rattle.lattice.specs.laws.LaidTree.{LaysTree};
ghost use Rattle.lattice.specs.laws.Rooted.{from_root};
ghost use Rattle.layers.specs.laws.Known.{Before};
ghost use Rattle.layers.specs.laws.Behind.{LaysBehind};

use elementary::exp::exp_at;
use floats::finite::tested;
use floats::{Reason, Refusal};
use lattice::{NextLayer, Rows};
use layers::grow::{LayerBefore, grow, has_room, spacing_of};

// The layers from `step` on, the first being laid already, behind the layer before.
fn layers(
    decay: f64,
    layer: NextLayer,
    step: u32,
    variances: &[f64],
    counts: &mut [usize],
    spacings: &mut [f64],
    nodes: &mut [i32],
    probabilities: &mut [f64],
    rows: Rows,
    before: LayerBefore,
) -> Result<(), Refusal>
    requires front { Front layer.count layer.spacing decay (drop (before.count * 2) nodes.old) (drop (before.count * 3) probabilities.old) }
    requires counts_len { (length counts.old ≡ length variances.now + 1) × (length spacings.old ≡ length variances.now) }
    requires variances_bound { (step + length variances.now < 2 ^ 32) × (layer.count ≤ rows.first) × (layer.count ≤ rows.second) }
    requires before { Before decay before.spacing before.variance before.count nodes.old probabilities.old }
    ensures { LaysBehind before.count rows.first rows.second layer.count (numbers_in (front_nodes layer.count (drop (before.count * 2) nodes.old))) (grown (room_left (drop (before.count * 2) nodes.old) (drop (before.count * 3) probabilities.old) rows.first rows.second) decay layer.spacing 0 (numbers_in (front_nodes layer.count (drop (before.count * 2) nodes.old))) step variances.now) result counts.new spacings.new nodes.old nodes.new probabilities.old probabilities.new }
{
    counts[0] = layer.count;
    if variances.len() == 0 {
        return Ok(());
    }
    spacings[0] = layer.spacing;
    let variance = variances[0];
    let next = grow(
        layer,
        decay,
        variance,
        step,
        nodes,
        probabilities,
        rows,
        before,
    )?;
    let pairs = before.count * 2;
    let threes = before.count * 3;
    layers(
        decay,
        next,
        step + 1,
        &variances[1..],
        &mut counts[1..],
        &mut spacings[1..],
        &mut nodes[pairs..],
        &mut probabilities[threes..],
        rows,
        LayerBefore {
            count: layer.count,
            spacing: layer.spacing,
            variance,
        },
    )
}

// exp(−alpha × dt).
pub fn decay_of(alpha: f64, dt: f64) -> Result<f64, Refusal>
    ensures { result ≡ decay_of alpha dt }
{
    exp_at(tested(-alpha * dt, 0)?, 0)
}

// The root, where it fits, then the layers.
fn rooted(
    decay: f64,
    spacing: f64,
    variances: &[f64],
    counts: &mut [usize],
    spacings: &mut [f64],
    nodes: &mut [i32],
    probabilities: &mut [f64],
    rows: Rows,
) -> Result<(), Refusal>
    requires t { (T (le plus_zero decay)) × (T (le plus_zero spacing)) × (length variances.now < 2 ^ 32) }
    requires counts_len { (length counts.old ≡ length variances.now + 1) × (length spacings.old ≡ length variances.now) }
    ensures { LaysTree false rows.first rows.second 1 root_layer (from_root (room_left nodes.old probabilities.old rows.first rows.second) decay spacing variances.now) result counts.new spacings.new nodes.new probabilities.new }
{
    if has_room(nodes.len(), probabilities.len(), rows, 0, 1) {
        nodes[0] = 0;
        nodes[1] = 0;
        return layers(
            decay,
            NextLayer { spacing, count: 1 },
            0,
            variances,
            counts,
            spacings,
            nodes,
            probabilities,
            rows,
            LayerBefore {
                count: 0,
                spacing: 0.0,
                variance: 0.0,
            },
        );
    }
    Err(Refusal {
        reason: Reason::NoRoom,
        place: 0,
    })
}

// Decay and spacing 0, the root, then the layers.
pub fn curved_tree(
    alpha: f64,
    dt: f64,
    variances: &[f64],
    counts: &mut [usize],
    spacings: &mut [f64],
    nodes: &mut [i32],
    probabilities: &mut [f64],
    rows: Rows,
) -> Result<(), Refusal>
    requires variances_nonzero { (0 < length variances.now) × (length variances.now < 2 ^ 32) }
    requires counts_len { (length counts.old ≡ length variances.now + 1) × (length spacings.old ≡ length variances.now) }
    ensures { LaysTree false rows.first rows.second 1 root_layer (curved (room_left nodes.old probabilities.old rows.first rows.second) alpha dt variances.now) result counts.new spacings.new nodes.new probabilities.new }
{
    let decay = decay_of(alpha, dt)?;
    let spacing = spacing_of(variances[0], 0)?;
    rooted(
        decay,
        spacing,
        variances,
        counts,
        spacings,
        nodes,
        probabilities,
        rows,
    )
}
