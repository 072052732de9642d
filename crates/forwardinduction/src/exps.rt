// The exps of a layer, 64 nodes at a time, so that they are worked out side by side.

ghost use Rattle.std.specs.Prelude.{◌≡◌, ◌*◌, ◌+◌, ◌<◌, ◌≤◌, min, length, Float};
ghost use Rattle.elementary.specs.Exponential.{ExpRow};
ghost use Rattle.elementary.specs.laws.Rows.{Filled};
ghost use Rattle.forwardinduction.specs.laws.Exps.{Kept, Ready, argument_of, rate_argument, weight_argument};

use elementary::exps::exp_row;

// How many of the nodes that are left a part takes.
fn part_of(left: usize) -> usize
    ensures { result ≡ min left 64 }
{
    left.min(64)
}

// exp of each number of a part, where it says true.
fn part_exps(xs: &[f64], es: &mut [f64]) -> bool
    requires { (length es.old ≡ length xs.now) × (length xs.now ≤ 64) }
    ensures { ExpRow result xs.now es.new }
{
    let n = xs.len();
    let mut ks = [0.0; 64];
    let mut rs = [0.0; 64];
    exp_row(xs, es, &mut ks[..n], &mut rs[..n])
}

// What is worked out of the number of each of the n nodes from `first` on.
pub fn arguments<F: Fn(f64) -> f64>(
    nodes: &[i32],
    first: usize,
    n: usize,
    argument: F,
    xs: &mut [f64],
)
    requires room { (n ≤ length xs.old) × ((first + n) * 2 ≤ length nodes.now) }
    requires callable { F.IsAlwaysCallable argument }
    ensures { (f : Float → Float) → ((x r : Float) → F.post argument x r → r ≡ f x) → Filled (argument_of f nodes.now first) xs.old xs.new n }
{
    for k in 0..n {
        let node = nodes[(first + k) * 2];
        xs[k] = argument(node as f64);
    }
}

// Where a part begins at node i, the exps of its nodes' arguments; elsewhere nothing changes. Up to three nodes are faster one by one.
fn exps<F: Fn(f64) -> f64>(
    nodes: &[i32],
    count: usize,
    i: usize,
    good: bool,
    argument: F,
    es: &mut [f64],
) -> bool
    requires room { (length nodes.now ≡ count * 2) × (i < count) × (length es.old ≡ 64) }
    requires callable { F.IsAlwaysCallable argument }
    ensures { (f : Float → Float) → ((x r : Float) → F.post argument x r → r ≡ f x) → Kept f nodes.now count good i es.old → Ready f nodes.now count result i es.new }
{
    if i % 64 != 0 {
        return good;
    }
    let n = part_of(count - i);
    if n < 4 {
        return false;
    }
    let mut xs = [0.0; 64];
    arguments(nodes, i, n, argument, &mut xs);
    part_exps(&xs[..n], &mut es[..n])
}

// The exps of the weights: of spacing × (−node × time_step).
pub(crate) fn weights(
    nodes: &[i32],
    count: usize,
    i: usize,
    good: bool,
    spacing: f64,
    dt: f64,
    es: &mut [f64],
) -> bool
    requires { (length nodes.now ≡ count * 2) × (i < count) × Kept (weight_argument spacing dt) nodes.now count good i es.old }
    ensures { Ready (weight_argument spacing dt) nodes.now count result i es.new }
{
    exps(nodes, count, i, good, |node| spacing * (-node * dt), es)
}

// The exps of the rates: of (shift + spacing × node) × −time_step.
pub(crate) fn discounts(
    nodes: &[i32],
    count: usize,
    i: usize,
    good: bool,
    spacing: f64,
    dt: f64,
    shift: f64,
    es: &mut [f64],
) -> bool
    requires { (length nodes.now ≡ count * 2) × (i < count) × Kept (rate_argument spacing dt shift) nodes.now count good i es.old }
    ensures { Ready (rate_argument spacing dt shift) nodes.now count result i es.new }
{
    exps(
        nodes,
        count,
        i,
        good,
        |node| (shift + spacing * node) * -dt,
        es,
    )
}
