// The tree in the lent slices: all its layers, flat or not, and how many nodes they have.

ghost use Rattle.std.specs.Prelude.{◌≡◌, ◌+◌, ◌^◌, ◌<◌, length};
ghost use Rattle.lattice.specs.Lattice.{lattice, all_flat, root_layer};
ghost use Rattle.lattice.specs.laws.Growing.{room_left};
ghost use Rattle.lattice.specs.laws.LaidTree.{LaysTree};
ghost use Rattle.lattice.specs.laws.Totals.{total_of};

use crate::curved::curved_tree;
use crate::flat::{all_flat, flat_tree};
use floats::Refusal;
use lattice::Rows;

// Layers, transitions and spacings, or 21 to 24, 26, 27.
pub fn lattice_transitions(
    alpha: f64,
    dt: f64,
    variances: &[f64],
    counts: &mut [usize],
    spacings: &mut [f64],
    nodes: &mut [i32],
    probabilities: &mut [f64],
    rows: Rows,
) -> Result<(), Refusal>
    requires variances_nonzero { (0 < length variances.now) × (length variances.now < 2 ^ 32) }
    requires counts_len { (length counts.old ≡ length variances.now + 1) × (length spacings.old ≡ length variances.now) }
    ensures { LaysTree (all_flat variances.now) rows.first rows.second 1 root_layer (lattice (room_left nodes.old probabilities.old rows.first rows.second) alpha dt variances.now) result counts.new spacings.new nodes.new probabilities.new }
{
    if all_flat(variances) {
        return flat_tree(counts, spacings, nodes, probabilities, rows);
    }
    curved_tree(
        alpha,
        dt,
        variances,
        counts,
        spacings,
        nodes,
        probabilities,
        rows,
    )
}

// The nodes of all layers.
pub fn node_count(counts: &[usize]) -> u64
    requires { total_of counts.now < 2 ^ 64 }
    ensures { result ≡ total_of counts.now }
{
    let mut total: u64 = 0;
    for count in counts {
        total += *count as u64;
    }
    total
}
