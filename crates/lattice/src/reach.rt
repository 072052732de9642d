// The nodes of the next layer that a layer's middles reach, replayed node by node.

ghost use Rattle.std.specs.Prelude.{◌≡◌, ◌+◌, ◌<◌, ◌^◌};
ghost use Rattle.lattice.specs.laws.Reaching.{reach_one, reach, nothing_below};
ghost use Rattle.lattice.specs.laws.Bounds.{Within};

// The highest node reached, and how many are reached.
#[derive(Clone, Copy)]
pub struct Reach {
    pub top: i32,
    pub count: usize,
}

// A node above all that are reached is one more, and the highest.
fn reached_one(r: Reach, node: i32) -> Reach
    requires { r.count + 1 < 2 ^ 64 }
    ensures { result ≡ reach_one r node }
{
    let top = r.top;
    let count = r.count;
    if top < node {
        return Reach {
            top: node,
            count: count + 1,
        };
    }
    r
}

// The three destinations around a middle, rising.
pub fn reached(r: Reach, middle: i32) -> Reach
    requires { (r.count + 3 < 2 ^ 64) × Within middle }
    ensures { result ≡ reach r middle }
{
    let low = reached_one(r, middle - 1);
    let mid = reached_one(low, middle);
    reached_one(mid, middle + 1)
}

// Nothing is reached, and each destination around the first middle will be above.
pub fn nothing_below(middle: i32) -> Reach
    requires { Within middle }
    ensures { result ≡ nothing_below middle }
{
    Reach {
        top: middle - 2,
        count: 0,
    }
}
