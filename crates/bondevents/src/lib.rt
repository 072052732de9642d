// Contractual cashflows, the issuer's calls and the holder's puts on a uniform time grid.
#![tactic(auto, unfolding(floats::specs::Answers::on_outcome, floats::specs::Answers::outcome_of))]

pub mod axis;
pub mod calls;
pub mod marks;
pub mod principal;
pub mod steps;

ghost use Rattle.std.specs.Prelude.{◌≡◌};
ghost use Rattle.bondevents.specs.Calls.{none, new_step, kept, keep};

use floats::Refusal;
use floats::max::greater;
use floats::min::lesser;

// One call or put entry: a window where its days differ.
#[derive(Clone, Copy)]
pub struct Entry {
    pub start: u32,
    pub end: u32,
    pub strike: f64,
}

// Who exercises: the issuer calls, the holder puts.
#[derive(Clone, Copy)]
pub enum Side {
    Call,
    Put,
}

impl Side {
    // Of calls the lower of two prices, of puts the higher.
    #[tactic(auto, unfolding(crate::specs::Calls::kept))]
    fn kept(self, x: f64, y: f64) -> f64
        ensures { result ≡ kept self x y }
    {
        match self {
            Side::Call => lesser(x, y),
            Side::Put => greater(x, y),
        }
    }
}

// Whether a price stands at a step, and the price, 0 without one. No `Option`: what is read of a step is read of any mark and
// any price beside it.
#[derive(Clone, Copy)]
pub struct Exercise {
    pub marked: bool,
    pub price: f64,
}

impl Exercise {
    // No price.
    pub fn none() -> Self
        ensures { result ≡ none }
    {
        Exercise {
            marked: false,
            price: 0.0,
        }
    }

    // Of calls the lowest price is kept, of puts the highest.
    #[tactic(auto, unfolding(crate::specs::Calls::keep))]
    pub fn keep(self, side: Side, price: f64) -> Self
        ensures { result ≡ keep side self price }
    {
        Exercise {
            marked: true,
            price: if self.marked {
                side.kept(self.price, price)
            } else {
                price
            },
        }
    }
}

// One step of the grid: its call and its put.
#[derive(Clone, Copy)]
pub struct CallStep {
    pub call: Exercise,
    pub put: Exercise,
}

impl CallStep {
    // A step without a call price and without a put price.
    pub fn new() -> Self
        ensures { result ≡ new_step }
    {
        CallStep {
            call: Exercise::none(),
            put: Exercise::none(),
        }
    }
}

// The grid; places past the last step are zero and unmarked.
#[derive(Clone, Copy)]
pub struct BondEventGrid {
    pub maturity_time: f64,
    pub steps: u32,
    pub cashflows: [f64; 513],
    pub calls: [CallStep; 513],
}

// The grid, or its refusal beside a grid that is all zero.
#[derive(Drop)]
pub struct GridAnswer {
    pub refusal: Option<Refusal>,
    pub grid: BondEventGrid,
}
