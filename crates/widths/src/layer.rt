// A layer in the node slice, one place per node: its middles take the places of its nodes, and the next layer is laid behind it.
// count_next, push, push_three and spread are like layers' own: a node has one place here and two there, its middle beside it, so that one function for both would multiply each index by a parameter and write the middle on a condition.

ghost use Rattle.std.specs.Prelude.{◌≡◌, ◌+◌, ◌≤◌, ◌<◌, length, get_or, take, drop, pos};
ghost use Rattle.lattice.specs.laws.Bounds.{Within, Numbered, AllWithin};
ghost use Rattle.lattice.specs.laws.Reaching.{reach_one, reach, reach_all, nothing_below};
ghost use Rattle.lattice.specs.laws.Laying.{Pushed};
ghost use Rattle.widths.specs.laws.InPlace.{FilledInPlace};
ghost use Rattle.widths.specs.laws.Placing.{placed, placed_three, placed_all};

use floats::Refusal;
use lattice::node::middle_of;
use lattice::reach::{Reach, nothing_below, reached};

// The middles of a layer of `count` nodes, rising, each in its node's place.
pub fn fill(
    spacing: f64,
    decay: f64,
    new_spacing: f64,
    place: u32,
    count: usize,
    nodes: &mut [i32],
) -> Result<(), Refusal>
    requires { count ≤ length nodes.old }
    ensures { FilledInPlace spacing decay new_spacing place count result nodes.old nodes.new }
{
    for i in 0..count {
        let node = nodes[i];
        nodes[i] = middle_of(spacing, decay, new_spacing, place, node)?.node;
    }
    Ok(())
}

// How many nodes of the next layer the `count` middles in front reach.
pub fn count_next(count: usize, nodes: &[i32]) -> Reach
    requires { (0 < count) × (count ≤ length nodes.now) × (count < 2305843009213693952) × AllWithin (take count nodes.now) }
    ensures { result ≡ reach_all (nothing_below (get_or nodes.now 0 (pos 0))) (take count nodes.now) }
{
    let first = nodes[0];
    let mut r = nothing_below(first);
    for i in 0..count {
        let middle = nodes[i];
        r = reached(r, middle);
    }
    r
}

// A node above all that are reached is laid behind them. The first `from` places are another layer's.
fn push(r: Reach, node: i32, from: usize, nodes: &mut [i32]) -> Reach
    requires { (from + (reach_one r node).count ≤ length nodes.old) × Numbered node }
    ensures { Pushed result (reach_one r node) nodes.new (placed from r node nodes.old) }
{
    let top = r.top;
    let count = r.count;
    if top < node {
        nodes[from + count] = node;
        return Reach {
            top: node,
            count: count + 1,
        };
    }
    r
}

// The three destinations around a middle, rising.
fn push_three(r: Reach, middle: i32, from: usize, nodes: &mut [i32]) -> Reach
    requires { (from + (reach r middle).count ≤ length nodes.old) × Within middle }
    ensures { Pushed result (reach r middle) nodes.new (placed_three from r middle nodes.old) }
{
    let low = push(r, middle - 1, from, nodes);
    let mid = push(low, middle, from, nodes);
    push(mid, middle + 1, from, nodes)
}

// The nodes that the `count` middles in front reach, laid behind them.
pub fn spread(count: usize, nodes: &mut [i32])
    requires { (0 < count) × (count + (reach_all (nothing_below (get_or nodes.old 0 (pos 0))) (take count nodes.old)).count ≤ length nodes.old) × AllWithin (take count nodes.old) }
    ensures { nodes.new ≡ placed_all count (nothing_below (get_or nodes.old 0 (pos 0))) (take count nodes.old) nodes.old }
{
    let first = nodes[0];
    let mut r = nothing_below(first);
    for i in 0..count {
        let middle = nodes[i];
        r = push_three(r, middle, count, nodes);
    }
}
