// What the day's steps of one grid rest on.

ghost use Rattle.std.specs.Prelude.{◌≤◌};

use terms::Epoch;

// Settlement, maturity's time and the number of steps.
#[derive(Clone, Copy)]
pub struct Axis {
    pub settlement: Epoch,
    pub maturity: f64,
    pub steps: usize,
    pub ghost some_steps: { 1 ≤ steps },
    pub ghost few_steps: { steps ≤ 512 },
}
