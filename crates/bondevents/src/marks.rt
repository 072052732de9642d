// The steps of all 513 places of the grid, as marks beside prices.

ghost use Rattle.std.specs.Prelude.{◌≡◌, map};
ghost use Rattle.bondevents.specs.Parts.{side_of, side_mark, side_price, step_mark, step_prices};

use crate::{CallStep, Exercise, Side};

// A step's call, or its put.
#[tactic(auto, unfolding(crate::specs::Parts::side_of))]
fn side_of(side: Side, step: CallStep) -> Exercise
    ensures { result ≡ side_of side step }
{
    match side {
        Side::Call => step.call,
        Side::Put => step.put,
    }
}

// 1 where a price stands.
fn side_mark(side: Side, step: CallStep) -> u8
    ensures { result ≡ side_mark side step }
{
    side_of(side, step).marked as u8
}

// The price beside it.
#[tactic(auto, unfolding(crate::specs::Parts::side_price))]
fn side_price(side: Side, step: CallStep) -> f64
    ensures { result ≡ side_price side step }
{
    side_of(side, step).price
}

// What is read of each step.
fn each_step<T: Copy, F: Fn(CallStep) -> T>(steps: &[CallStep; 513], unread: T, read: F) -> [T; 513]
    requires { (step : CallStep) → F.pre read step }
    ensures { (reading : CallStep → T) → ((step : CallStep) (r : T) → F.post read step r → r ≡ reading step) → result ≡ map reading steps.now }
{
    let mut row = [unread; 513];
    for i in 0..513 {
        row[i] = read(steps[i]);
    }
    row
}

// The marks of one side.
pub fn marks_of(side: Side, steps: &[CallStep; 513]) -> [u8; 513]
    ensures { result ≡ map (side_mark side) steps.now }
{
    each_step(steps, 0, |step| side_mark(side, step))
}

// The prices of one side.
pub fn prices_of(side: Side, steps: &[CallStep; 513]) -> [f64; 513]
    ensures { result ≡ map (side_price side) steps.now }
{
    each_step(steps, 0.0, |step| side_price(side, step))
}

// For the walk: 0 nothing, 1 a call, 2 a put, 3 both.
fn step_mark(step: CallStep) -> u8
    ensures { result ≡ step_mark step }
{
    match (step.call.marked, step.put.marked) {
        (true, true) => 3,
        (true, false) => 1,
        (false, true) => 2,
        (false, false) => 0,
    }
}

pub fn step_marks(steps: &[CallStep; 513]) -> [u8; 513]
    ensures { result ≡ map step_mark steps.now }
{
    each_step(steps, 0, |step| step_mark(step))
}

// For the walk: call and put price of each step side by side.
pub fn step_prices(steps: &[CallStep; 513]) -> [f64; 1026]
    ensures { result ≡ step_prices steps.now }
{
    let mut prices = [0.0; 1026];
    for i in 0..513 {
        let step = steps[i];
        prices[i * 2] = side_price(Side::Call, step);
        prices[i * 2 + 1] = side_price(Side::Put, step);
    }
    prices
}
