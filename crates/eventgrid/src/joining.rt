// Calls and puts of each step side by side, and 38.

ghost use Rattle.std.specs.Prelude.{◌≡◌, ◌≤◌, Err};
ghost use Rattle.bondevents.specs.Calls.{joined, put_above, puts_below};
ghost use Rattle.floats.specs.declared.Reason.TheVariants as reason;

use bondevents::{CallStep, Exercise};
use floats::{Reason, Refusal};

// The call and the put of each step.
pub fn joined_steps(calls: &[Exercise; 513], puts: &[Exercise; 513]) -> [CallStep; 513]
    ensures { result ≡ joined calls.now puts.now }
{
    let none = CallStep::new();
    let mut steps = [none; 513];
    for i in 0..513 {
        steps[i] = CallStep {
            call: calls[i],
            put: puts[i],
        };
    }
    steps
}

// A put above the call.
fn put_above(step: CallStep) -> bool
    ensures { result ≡ put_above step }
{
    step.call.marked && step.put.marked && step.call.price < step.put.price
}

// 38 at a step.
fn above_at(step: usize) -> Result<(), Refusal>
    requires { step ≤ 512 }
    ensures { result ≡ Err (record { reason = reason.PutAbove; place = step }) }
{
    Err(Refusal {
        reason: Reason::PutAbove,
        place: step as u32,
    })
}

// 38: a put above the call at a step, the lowest step its place.
pub fn puts_below(steps: &[CallStep; 513]) -> Result<(), Refusal>
    ensures { result ≡ puts_below steps.now }
{
    for i in 0..513 {
        if put_above(steps[i]) {
            return above_at(i);
        }
    }
    Ok(())
}
