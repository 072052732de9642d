// What a bond file is worth: the straight value, the yield, the tree value and the spread behind a quote.
#![tactic(auto)]

pub mod pricing;
pub mod tree;
pub mod worth;

// What the tree is asked: the value, what the calls are worth, or the spread behind a quote. A value and no closure, since it
// is asked again in a larger room, and what is answered and left in the room is defined by it.
#[derive(Clone, Copy)]
pub enum Ask {
    Value,
    Calls,
    Spread(f64),
}

// A value or what calls are worth, and its nodes; or a spread and its tries.
#[derive(Clone, Copy, Debug, PartialEq)]
pub struct Reply {
    pub found: f64,
    pub count: u64,
}
