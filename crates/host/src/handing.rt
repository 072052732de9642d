// Writes an answer through the references that a C caller lends, and gives its refusal number.

ghost use Rattle.std.specs.Prelude.{◌≡◌};
ghost use Rattle.floats.specs.Reasons.{refusal_number, refusal_place};
ghost use Rattle.host.specs.Handed.{Handed, HandedValue, HandedPrice, HandedRoot, HandedLengths};

use brackets::{NoRoot, Root};
use floats::Refusal;
use interestrate::YieldPrice;
use sizing::Lengths;
use treebasedbondpricer::TreeValue;

// Of what may be refused.
pub fn hand_refusal(refusal: Option<Refusal>, place: &mut u32) -> u32
    ensures number { result ≡ refusal_number refusal }
    ensures place { place.new ≡ refusal_place refusal }
{
    match refusal {
        None => {
            *place = 0;
            0
        }
        Some(refused) => {
            *place = refused.place;
            refused.reason.number()
        }
    }
}

pub fn hand_over(answer: Result<f64, Refusal>, place: &mut u32, value: &mut f64) -> u32
    ensures { Handed answer result place.new value.new }
{
    match answer {
        Ok(x) => {
            *place = 0;
            *value = x;
            0
        }
        Err(why) => {
            *place = why.place;
            *value = 0.0;
            why.reason.number()
        }
    }
}

pub fn hand_value(
    answer: Result<TreeValue, Refusal>,
    place: &mut u32,
    value: &mut f64,
    nodes: &mut u64,
) -> u32
    ensures { HandedValue answer result place.new value.new nodes.new }
{
    match answer {
        Ok(TreeValue { value: x, nodes: n }) => {
            *place = 0;
            *value = x;
            *nodes = n;
            0
        }
        Err(refusal) => {
            *place = refusal.place;
            *value = 0.0;
            *nodes = 0;
            refusal.reason.number()
        }
    }
}

pub fn hand_price(
    answer: Result<YieldPrice, Refusal>,
    place: &mut u32,
    price: &mut f64,
    derivative: &mut f64,
) -> u32
    ensures { HandedPrice answer result place.new price.new derivative.new }
{
    match answer {
        Ok(
            YieldPrice {
                price: p,
                derivative: d,
            },
        ) => {
            *place = 0;
            *price = p;
            *derivative = d;
            0
        }
        Err(refusal) => {
            *place = refusal.place;
            *price = 0.0;
            *derivative = 0.0;
            refusal.reason.number()
        }
    }
}

pub fn hand_root(
    answer: Result<Root, NoRoot>,
    place: &mut u32,
    value: &mut f64,
    evaluations: &mut u32,
) -> u32
    ensures { HandedRoot answer result place.new value.new evaluations.new }
{
    match answer {
        Ok(root) => {
            *place = 0;
            *value = root.at;
            *evaluations = root.evaluations;
            0
        }
        Err(none) => {
            *place = none.refusal.place;
            *value = 0.0;
            *evaluations = none.evaluations;
            none.refusal.reason.number()
        }
    }
}

pub fn hand_sizes(
    answer: Result<Lengths, Refusal>,
    place: &mut u32,
    nodes: &mut u64,
    probabilities: &mut u64,
    row: &mut u64,
    count: &mut u64,
) -> u32
    ensures { HandedLengths answer result place.new nodes.new probabilities.new row.new count.new }
{
    match answer {
        Ok(l) => {
            *place = 0;
            *nodes = l.nodes;
            *probabilities = l.probabilities;
            *row = l.row;
            *count = l.count;
            0
        }
        Err(refusal) => {
            *place = refusal.place;
            *nodes = 0;
            *probabilities = 0;
            *row = 0;
            *count = 0;
            refusal.reason.number()
        }
    }
}
