// A flat tree: one node 0 per layer.

ghost use Rattle.std.specs.Prelude.{◌≡◌, true, ◌+◌, ◌^◌, ◌<◌, ◌≤◌, ◌∷◌, length, drop, pos};
ghost use Rattle.floats.specs.Answers.{plus_zero, one};
ghost use Rattle.lattice.specs.Lattice.{flat, all_flat, root_layer};
ghost use Rattle.lattice.specs.laws.Growing.{room_left};
ghost use Rattle.lattice.specs.laws.LaidTree.{LaysTree};
ghost use Rattle.lattice.specs.laws.FlatLeft.{flat_left};

use floats::{Reason, Refusal};
use lattice::{Rows, Step};
use layers::grow::has_room;

// Whether all variances are at or below 2^−52.
pub fn all_flat(variances: &[f64]) -> bool
    ensures { result ≡ all_flat variances.now }
{
    variances.iter().all(|variance| *variance <= Step::EPSILON)
}

// Node 0 in front, with middle 0: a layer of one.
fn lay_node(counts: &mut [usize], nodes: &mut [i32])
    requires { (1 ≤ length counts.old) × (2 ≤ length nodes.old) }
    ensures { (counts.new ≡ 1 ∷ drop 1 counts.old) × (nodes.new ≡ pos 0 ∷ pos 0 ∷ drop 2 nodes.old) }
{
    counts[0] = 1;
    nodes[0] = 0;
    nodes[1] = 0;
}

// Its spacing 0 and its probabilities 0, 1, 0.
fn lay_still(spacings: &mut [f64], probabilities: &mut [f64])
    requires { (1 ≤ length spacings.old) × (3 ≤ length probabilities.old) }
    ensures { (spacings.new ≡ plus_zero ∷ drop 1 spacings.old) × (probabilities.new ≡ plus_zero ∷ one ∷ plus_zero ∷ drop 3 probabilities.old) }
{
    spacings[0] = 0.0;
    probabilities[0] = 0.0;
    probabilities[1] = 1.0;
    probabilities[2] = 0.0;
}

// The layers from `step` on, each in front of what is left.
fn flat_layers(
    step: u32,
    counts: &mut [usize],
    spacings: &mut [f64],
    nodes: &mut [i32],
    probabilities: &mut [f64],
    rows: Rows,
) -> Result<(), Refusal>
    requires { (length counts.old ≡ length spacings.old + 1) × (step + length spacings.old < 2 ^ 32) }
    ensures { LaysTree true rows.first rows.second 1 root_layer (flat_left (room_left nodes.old probabilities.old rows.first rows.second) step (length spacings.old)) result counts.new spacings.new nodes.new probabilities.new }
{
    if !has_room(nodes.len(), probabilities.len(), rows, 0, 1) {
        return Err(Refusal {
            reason: Reason::NoRoom,
            place: step,
        });
    }
    lay_node(counts, nodes);
    if spacings.len() == 0 {
        return Ok(());
    }
    lay_still(spacings, probabilities);
    flat_layers(
        step + 1,
        &mut counts[1..],
        &mut spacings[1..],
        &mut nodes[2..],
        &mut probabilities[3..],
        rows,
    )
}

// The layers of a flat tree of as many steps as spacings.
pub fn flat_tree(
    counts: &mut [usize],
    spacings: &mut [f64],
    nodes: &mut [i32],
    probabilities: &mut [f64],
    rows: Rows,
) -> Result<(), Refusal>
    requires { (length counts.old ≡ length spacings.old + 1) × (length spacings.old < 2 ^ 32) }
    ensures { LaysTree true rows.first rows.second 1 root_layer (flat (room_left nodes.old probabilities.old rows.first rows.second) 0 (length spacings.old)) result counts.new spacings.new nodes.new probabilities.new }
{
    flat_layers(0, counts, spacings, nodes, probabilities, rows)
}
