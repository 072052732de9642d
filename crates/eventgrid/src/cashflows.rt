// The cashflows of each step.

ghost use Rattle.std.specs.Prelude.{◌≡◌, ◌≤◌, length, replicate};
ghost use Rattle.floats.specs.Answers.{plus_zero};
ghost use Rattle.bondevents.specs.Parts.{axis_in};
ghost use Rattle.bondevents.specs.Steps.{paid_into};

use bondevents::axis::Axis;
use bondevents::steps::step_of;

// Paid amounts, added into their step in list order. Those on or before settlement aren't paid.
pub fn paid_into(axis: Axis, days: &[u32], amounts: &[f64]) -> [f64; 513]
    requires { length amounts.now ≡ length days.now }
    ensures { result ≡ paid_into (axis_in axis) days.now amounts.now (replicate 513 plus_zero) }
{
    let mut row = [0.0; 513];
    for i in 0..days.len() {
        if days[i] <= axis.settlement.day {
            continue;
        }
        let step = step_of(axis, days[i]);
        row[step] += amounts[i];
    }
    row
}
