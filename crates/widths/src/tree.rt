// All layers of the tree in the node slice, two at a time: how many nodes they have, and how many the widest has.

ghost use Rattle.std.specs.Prelude.{◌≡◌, ◌<◌, ◌^◌, T, length, take};
ghost use Rattle.std.specs.Float.Ieee.{le};
ghost use Rattle.floats.specs.Answers.{plus_zero};
ghost use Rattle.lattice.specs.Lattice.{root_layer};
ghost use Rattle.widths.specs.Widths.{widths_from, curved_widths, widths};
ghost use Rattle.widths.specs.laws.Summing.{sums_made, sums_of, flat_all, rooted_widths};

use crate::widen::widen;
use floats::{Reason, Refusal};
use lattice::NextLayer;
use latticetransitions::curved::decay_of;
use latticetransitions::flat::all_flat;
use layers::grow::spacing_of;

// The nodes of all layers and those of the widest.
#[derive(Drop)]
pub struct Widths {
    pub nodes: u64,
    pub widest: u64,
}

// The layers from the root on, which stands in front.
fn layers(decay: f64, first: f64, variances: &[f64], nodes: &mut [i32]) -> Result<Widths, Refusal>
    requires { (T (le plus_zero decay)) × (T (le plus_zero first)) × (length variances.now < 2 ^ 32) × (0 < length nodes.old) × (take 1 nodes.old ≡ root_layer) }
    ensures { sums_made result ≡ sums_of (widths_from (length nodes.old) decay first root_layer 0 variances.now) }
{
    let mut layer = NextLayer {
        spacing: first,
        count: 1,
    };
    let mut total: u64 = 0;
    let mut widest: u64 = 0;
    for (i, variance) in variances.iter().enumerate() {
        total += layer.count as u64;
        widest = widest.max(layer.count as u64);
        layer = widen(layer, decay, *variance, i as u32, nodes)?;
    }
    Ok(Widths {
        nodes: total + layer.count as u64,
        widest: widest.max(layer.count as u64),
    })
}

// The root, where it fits, then the layers.
fn rooted(decay: f64, spacing: f64, variances: &[f64], nodes: &mut [i32]) -> Result<Widths, Refusal>
    requires { (T (le plus_zero decay)) × (T (le plus_zero spacing)) × (length variances.now < 2 ^ 32) }
    ensures { sums_made result ≡ sums_of (rooted_widths (length nodes.old) decay spacing variances.now) }
{
    if nodes.len() < 1 {
        return Err(Refusal {
            reason: Reason::NoRoom,
            place: 0,
        });
    }
    nodes[0] = 0;
    layers(decay, spacing, variances, nodes)
}

// Decay and spacing 0, the root, then the layers.
fn curved_widths(
    alpha: f64,
    dt: f64,
    variances: &[f64],
    nodes: &mut [i32],
) -> Result<Widths, Refusal>
    requires { (0 < length variances.now) × (length variances.now < 2 ^ 32) }
    ensures { sums_made result ≡ sums_of (curved_widths (length nodes.old) alpha dt variances.now) }
{
    let decay = decay_of(alpha, dt)?;
    let spacing = spacing_of(variances[0], 0)?;
    rooted(decay, spacing, variances, nodes)
}

// One node per layer, of `steps` layers and the last.
fn flat_widths(steps: usize, room: usize) -> Result<Widths, Refusal>
    requires { (0 < steps) × (steps < 2 ^ 32) }
    ensures { sums_made result ≡ sums_of (flat_all room steps) }
{
    if room < 1 {
        return Err(Refusal {
            reason: Reason::NoRoom,
            place: 0,
        });
    }
    if room < 2 {
        return Err(Refusal {
            reason: Reason::NoRoom,
            place: 1,
        });
    }
    Ok(Widths {
        nodes: steps as u64 + 1,
        widest: 1,
    })
}

// The widths of all layers, flat or not, or 21 to 23, 26, 27.
pub fn tree_widths(
    alpha: f64,
    dt: f64,
    variances: &[f64],
    nodes: &mut [i32],
) -> Result<Widths, Refusal>
    requires { (0 < length variances.now) × (length variances.now < 2 ^ 32) }
    ensures { sums_made result ≡ sums_of (widths (length nodes.old) alpha dt variances.now) }
{
    if all_flat(variances) {
        return flat_widths(variances.len(), nodes.len());
    }
    curved_widths(alpha, dt, variances, nodes)
}
