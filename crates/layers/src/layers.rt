// The layers of the tree in the lent slices: a node's number and middle side by side, and its three probabilities.

ghost use Rattle.std.specs.Prelude.{◌≡◌, ◌+◌, ◌*◌, ◌≤◌, ◌<◌, length, get_or, pos};
ghost use Rattle.lattice.specs.Transitions.{transition_of};
ghost use Rattle.lattice.specs.laws.Bounds.{Within, Numbered, AllWithin};
ghost use Rattle.lattice.specs.laws.Reaching.{reach_one, reach, reach_all, nothing_below};
ghost use Rattle.lattice.specs.laws.Laying.{Pushed, pushed, pushed_three, pushed_all};
ghost use Rattle.lattice.specs.laws.Counting.{middles_from};
ghost use Rattle.layers.specs.laws.Known.{Known, StandsAt, stored_at};
ghost use Rattle.layers.specs.laws.Behind.{FilledBehind};

use floats::Refusal;
use lattice::node::transition_of;
use lattice::reach::{Reach, nothing_below, reached};
use lattice::{Step, Transition};

// The first of `known` nodes from `at` on that isn't below this one.
fn not_below(at: usize, known: usize, node: i32, nodes: &[i32]) -> usize
    requires { known * 2 ≤ length nodes.now }
{
    for j in at..known {
        if nodes[2 * j] >= node {
            return j;
        }
    }
    known
}

// Whether this node stands at j, among `known` ones.
fn stands_at(j: usize, known: usize, node: i32, nodes: &[i32]) -> bool
    requires { known * 2 ≤ length nodes.now }
    ensures { StandsAt j known node nodes.now result }
{
    if j < known {
        return nodes[2 * j] == node;
    }
    false
}

// The transition that stands at node j.
fn known_at(j: usize, nodes: &[i32], probabilities: &[f64]) -> Transition
    requires { (j * 2 + 2 ≤ length nodes.now) × (j * 3 + 3 ≤ length probabilities.now) × Within (get_or nodes.now (2 * j + 1) (pos 0)) }
    ensures { result ≡ stored_at j nodes.now probabilities.now }
{
    let middle = nodes[2 * j + 1];
    Transition {
        down: middle - 1,
        middle,
        up: middle + 1,
        probability_down: probabilities[3 * j],
        probability_middle: probabilities[3 * j + 1],
        probability_up: probabilities[3 * j + 2],
    }
}

// A node's transition: the one that stands at j, where that is this node, or made.
fn known_or_made(
    step: &Step,
    node: i32,
    j: usize,
    known: usize,
    nodes: &[i32],
    probabilities: &[f64],
) -> Result<Transition, Refusal>
    requires { Known step.now known nodes.now probabilities.now }
    ensures { result ≡ transition_of step.now node }
{
    if stands_at(j, known, node, nodes) {
        return Ok(known_at(j, nodes, probabilities));
    }
    transition_of(step, node)
}

// The middles and probabilities of a layer of `count` nodes, rising, behind `before` others. The first `known` of those have this step's transitions.
pub fn fill(
    step: &Step,
    count: usize,
    nodes: &mut [i32],
    probabilities: &mut [f64],
    before: usize,
    known: usize,
) -> Result<(), Refusal>
    requires count_in_bounds { ((before + count) * 2 ≤ length nodes.old) × ((before + count) * 3 ≤ length probabilities.old) × (known ≤ before) }
    requires known { Known step.now known nodes.old probabilities.old }
    ensures { FilledBehind step.now before count result nodes.old nodes.new probabilities.old probabilities.new }
{
    let mut j = 0;
    for i in 0..count {
        let at = before + i;
        let node = nodes[2 * at];
        j = not_below(j, known, node, nodes);
        let t = known_or_made(step, node, j, known, nodes, probabilities)?;
        nodes[2 * at + 1] = t.middle;
        probabilities[3 * at] = t.probability_down;
        probabilities[3 * at + 1] = t.probability_middle;
        probabilities[3 * at + 2] = t.probability_up;
    }
    Ok(())
}

// How many nodes of the next layer the middles of a layer of `count` nodes reach.
pub fn count_next(count: usize, nodes: &[i32]) -> Reach
    requires { (0 < count) × (2 * count ≤ length nodes.now) × (count < 1152921504606846976) × AllWithin (middles_from nodes.now 0 count) }
    ensures { result ≡ reach_all (nothing_below (get_or nodes.now 1 (pos 0))) (middles_from nodes.now 0 count) }
{
    let first = nodes[1];
    let mut r = nothing_below(first);
    for i in 0..count {
        let middle = nodes[2 * i + 1];
        r = reached(r, middle);
    }
    r
}

// A node above all that are reached is laid behind them, with a middle 0. The first `from` nodes are another layer's.
fn push(r: Reach, node: i32, from: usize, nodes: &mut [i32]) -> Reach
    requires { (2 * (from + (reach_one r node).count) ≤ length nodes.old) × Numbered node }
    ensures { Pushed result (reach_one r node) nodes.new (pushed from r node nodes.old) }
{
    let top = r.top;
    let count = r.count;
    if top < node {
        let at = 2 * (from + count);
        nodes[at] = node;
        nodes[at + 1] = 0;
        return Reach {
            top: node,
            count: count + 1,
        };
    }
    r
}

// The three destinations around a middle, rising.
fn push_three(r: Reach, middle: i32, from: usize, nodes: &mut [i32]) -> Reach
    requires { (2 * (from + (reach r middle).count) ≤ length nodes.old) × Within middle }
    ensures { Pushed result (reach r middle) nodes.new (pushed_three from r middle nodes.old) }
{
    let low = push(r, middle - 1, from, nodes);
    let mid = push(low, middle, from, nodes);
    push(mid, middle + 1, from, nodes)
}

// The nodes that the middles of the layer of `count` nodes in front reach, laid behind it.
pub fn spread(count: usize, nodes: &mut [i32])
    requires { (0 < count) × (2 * (count + (reach_all (nothing_below (get_or nodes.old 1 (pos 0))) (middles_from nodes.old 0 count)).count) ≤ length nodes.old) × AllWithin (middles_from nodes.old 0 count) }
    ensures { nodes.new ≡ pushed_all count (nothing_below (get_or nodes.old 1 (pos 0))) (middles_from nodes.old 0 count) nodes.old }
{
    let first = nodes[1];
    let mut r = nothing_below(first);
    for i in 0..count {
        let middle = nodes[2 * i + 1];
        r = push_three(r, middle, count, nodes);
    }
}
