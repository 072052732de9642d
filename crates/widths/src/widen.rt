// One layer more: the next layer's nodes take the place of a layer's in the node slice, where both fit together.

ghost use Rattle.std.specs.Prelude.{◌≡◌, ◌+◌, ◌≤◌, ◌<◌, ◌^◌, length, take};
ghost use Rattle.rounded.specs.laws.RootBounds.{NotBelow};
ghost use Rattle.widths.specs.Widths.{new_spacing};
ghost use Rattle.widths.specs.laws.LayerMiddles.{Reached};
ghost use Rattle.widths.specs.laws.Widening.{Fore, Widened, next_wide, wide_from, NextPlaced};

use crate::layer::{count_next, fill, spread};
use floats::{Reason, Refusal};
use lattice::{NextLayer, Step};
use layers::grow::spacing_of;

// 22, then the new spacing.
fn new_spacing(variance: f64, place: u32) -> Result<f64, Refusal>
    ensures { result ≡ new_spacing variance place }
{
    if variance <= Step::EPSILON {
        return Err(Refusal {
            reason: Reason::NoVariance,
            place,
        });
    }
    spacing_of(variance, place)
}

// The next layer of one whose middles are there: counted, the room for both tried, laid behind and moved to the front.
fn place_next(
    spacing: f64,
    step: u32,
    count: usize,
    nodes: &mut [i32],
) -> Result<NextLayer, Refusal>
    requires { (count ≤ length nodes.old) × Reached (take count nodes.old) × (step + 1 < 2 ^ 32) }
    ensures { NextPlaced spacing step count result nodes.old nodes.new }
{
    let reached = count_next(count, nodes);
    let next = reached.count;
    if nodes.len() < count + next {
        return Err(Refusal {
            reason: Reason::NoRoom,
            place: step + 1,
        });
    }
    spread(count, nodes);
    nodes.copy_within(count..count + next, 0);
    Ok(NextLayer {
        spacing,
        count: next,
    })
}

// The layer in front by a new spacing that is made.
fn widen_by(
    layer: NextLayer,
    decay: f64,
    new_spacing: f64,
    step: u32,
    nodes: &mut [i32],
) -> Result<NextLayer, Refusal>
    requires { (Fore layer.count layer.spacing decay nodes.old) × NotBelow new_spacing × (step + 1 < 2 ^ 32) }
    ensures { Widened (wide_from (length nodes.old) decay layer.spacing new_spacing (take layer.count nodes.old) step) result nodes.old nodes.new }
{
    fill(layer.spacing, decay, new_spacing, step, layer.count, nodes)?;
    place_next(new_spacing, step, layer.count, nodes)
}

// The layer in front gives way to the next one.
pub fn widen(
    layer: NextLayer,
    decay: f64,
    variance: f64,
    step: u32,
    nodes: &mut [i32],
) -> Result<NextLayer, Refusal>
    requires { (Fore layer.count layer.spacing decay nodes.old) × (step + 1 < 2 ^ 32) }
    ensures { Widened (next_wide (length nodes.old) decay layer.spacing (take layer.count nodes.old) step variance) result nodes.old nodes.new }
{
    let made = new_spacing(variance, step)?;
    widen_by(layer, decay, made, step, nodes)
}
