// The steps of the grid, and the step that a day falls in. A number is clamped before it is cast.

ghost use Rattle.std.specs.Prelude.{◌≡◌, ◌≤◌};
ghost use Rattle.std.specs.Float.Ieee.{to_unsigned};
ghost use Rattle.floats.specs.Whole.{rounded, ceiled};
ghost use Rattle.bondevents.specs.Parts.{axis_in};
ghost use Rattle.bondevents.specs.Steps.{clamp, steps_of, step_of, call_step_of};

use crate::axis::Axis;
use floats::ceil::ceil_at;
use floats::round::round_at;
use terms::time::time_from;

// ceil, clamped to 1..high.
fn up_to(target: f64, high: usize) -> usize
    requires { (1 ≤ high) × (high ≤ 512) }
    ensures { result ≡ clamp 1 high (to_unsigned 64 (ceiled target)) }
{
    if target >= high as f64 {
        return high;
    }
    if target > 1.0 {
        let answer = ceil_at(target, 0);
        let Ok(whole) = answer else {
            return 1;
        };
        return whole as usize;
    }
    1
}

// round, clamped to 1..high. Apart from `up_to`: one function for both is no plainer, since it would have to ask what each way gives between 1 and high.
fn near_to(target: f64, high: usize) -> usize
    requires { (1 ≤ high) × (high ≤ 512) }
    ensures { result ≡ clamp 1 high (to_unsigned 64 (rounded target)) }
{
    if target >= high as f64 {
        return high;
    }
    if target > 1.0 {
        let answer = round_at(target, 0);
        let Ok(whole) = answer else {
            return 1;
        };
        return whole as usize;
    }
    1
}

// ceil(T × steps per year), clamped to 1..maximum.
#[tactic(auto, using(floats::proofs::Laws::answers), unfolding(crate::specs::Steps::steps_of))]
pub fn steps_of(maturity: f64, per_year: u32, maximum: u32) -> usize
    requires { (1 ≤ maximum) × (maximum ≤ 512) }
    ensures { result ≡ steps_of maturity (record { per_year = per_year; maximum = maximum }) }
{
    up_to(maturity * per_year as f64, maximum as usize)
}

// A day's step: round(time/T × steps), clamped to 1..steps.
pub fn step_of(axis: Axis, day: u32) -> usize
    ensures { result ≡ step_of (axis_in axis) day }
{
    near_to(
        time_from(axis.settlement, day) / axis.maturity * axis.steps as f64,
        axis.steps,
    )
}

// A call day's step, clamped to 1..max(steps−1, 1).
pub fn call_step_of(axis: Axis, day: u32) -> usize
    ensures { result ≡ call_step_of (axis_in axis) day }
{
    let target = time_from(axis.settlement, day) / axis.maturity * axis.steps as f64;
    if axis.steps > 1 {
        return near_to(target, axis.steps - 1);
    }
    near_to(target, 1)
}
