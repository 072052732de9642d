// The walk back over all layers, the two lent rows alternating, to the root's value.

ghost use Rattle.std.specs.Prelude.{◌≡◌, ◌+◌, ◌*◌, ◌^◌, ◌<◌, ◌≤◌, length, get_or, replicate, Ok};
ghost use Rattle.bondevents.specs.Calls.{new_step};
ghost use Rattle.floats.specs.Answers.{follow, outcome_of};
ghost use Rattle.lattice.specs.laws.Positions.{start_of, Layered};
ghost use Rattle.lattice.specs.laws.Rows.{current_part};
ghost use Rattle.backwardinduction.specs.laws.WalkSteps.{rolled_at};
ghost use Rattle.forwardinduction.specs.laws.Fitting.{row_in};
ghost use Rattle.rollback.specs.Walking.{steps_of, walk_over, root_at, LaidIn, Aligned, Walkable};

use backwardinduction::walk::{Rates, Reads, roll};
use bondevents::{CallStep, Exercise};
use floats::Refusal;
use forwardinduction::rows::current;

// A fitted tree that is only read: its layers one after the other, and their counts, spacings and shifts.
#[derive(Clone, Copy)]
pub struct Lattice<'a> {
    pub nodes: &'a [i32],
    pub probabilities: &'a [f64],
    pub counts: &'a [usize],
    pub spacings: &'a [f64],
    pub shifts: &'a [f64],
    pub flat: bool,
    pub dt: f64,
}

// What the steps bring: cashflows, and the marks and prices of calls and puts.
#[derive(Clone, Copy)]
pub struct Events<'a> {
    pub cashflows: &'a [f64],
    pub marks: &'a [u8],
    pub prices: &'a [f64],
}

impl Events<'_> {
    // The step's call and put: mark 1 is a call, 2 a put, 3 both; the prices stand side by side.
    fn call_at(self, step: u32) -> CallStep
        requires { (step < length self.marks.now) × (length self.prices.now ≡ length self.marks.now * 2) }
        ensures { result ≡ get_or (steps_of self.entry) step new_step }
    {
        let at = step as usize;
        let mark = self.marks[at];
        CallStep {
            call: Exercise {
                marked: mark % 2 == 1,
                price: self.prices[at * 2],
            },
            put: Exercise {
                marked: mark > 1,
                price: self.prices[at * 2 + 1],
            },
        }
    }
}

// The current row of the last step: the same value at each node.
fn final_row(first: &mut [f64], second: &mut [f64], count: usize, value: f64, step: u32)
    requires { (count ≤ length first.old) × (count ≤ length second.old) }
    ensures { current_part step count first.new second.new ≡ replicate count value }
{
    if step % 2 == 0 {
        first[..count].fill(value);
    } else {
        second[..count].fill(value);
    }
}

// The current row of a step from the `next` entries of the other one: at an even step from the second to the first.
fn roll_step(
    nodes: &[i32],
    probabilities: &[f64],
    first: &mut [f64],
    second: &mut [f64],
    count: usize,
    next: usize,
    reads: Reads,
) -> Result<(), Refusal>
    requires count_in_bounds { (count ≤ length first.old) × (count ≤ length second.old) × (next ≤ length first.old) × (next ≤ length second.old) }
    requires layered { Layered reads.flat next nodes.now probabilities.now count }
    ensures { outcome_of result (current_part reads.place count first.new second.new) ≡ rolled_at reads.rates reads.call reads.cashflow reads.place reads.flat (current_part (reads.place + 1) next first.old second.old) (start_of nodes.now) 0 nodes.now probabilities.now (current_part reads.place count first.old second.old) }
{
    if reads.place % 2 == 0 {
        return roll(
            nodes,
            probabilities,
            &second[..next],
            &mut first[..count],
            reads,
        );
    }
    roll(
        nodes,
        probabilities,
        &first[..next],
        &mut second[..count],
        reads,
    )
}

// The row of `step`, from all the rows behind it.
fn walk(
    lattice: Lattice<'_>,
    events: Events<'_>,
    spread: f64,
    step: u32,
    first: &mut [f64],
    second: &mut [f64],
) -> Result<(), Refusal>
    requires laid { LaidIn lattice (length first.old) (length second.old) }
    requires steps { (length lattice.shifts.now ≡ length lattice.spacings.now) × (step + length lattice.spacings.now < length events.cashflows.now) × (length events.cashflows.now < 2 ^ 32) }
    requires calls { Aligned events }
    ensures { (follow (outcome_of result (record { first = first.exit.now; second = second.new })) λ rows. Ok (row_in step (get_or lattice.entry.counts.now 0 0) lattice.entry.nodes.now rows)) ≡ walk_over lattice.entry events.entry spread step }
{
    let count = lattice.counts[0];
    let cashflow = events.cashflows[step as usize];
    if lattice.spacings.is_empty() {
        final_row(first, second, count, cashflow, step);
        return Ok(());
    }
    let pairs = count * 2;
    let threes = count * 3;
    let behind = Lattice {
        nodes: &lattice.nodes[pairs..],
        probabilities: &lattice.probabilities[threes..],
        counts: &lattice.counts[1..],
        spacings: &lattice.spacings[1..],
        shifts: &lattice.shifts[1..],
        ..lattice
    };
    walk(behind, events, spread, step + 1, first, second)?;
    let rates = Rates {
        spacing: lattice.spacings[0],
        dt: lattice.dt,
        shift: lattice.shifts[0],
        spread,
    };
    let reads = Reads {
        rates,
        call: events.call_at(step),
        cashflow,
        flat: lattice.flat,
        place: step,
    };
    roll_step(
        &lattice.nodes[..pairs],
        &lattice.probabilities[..threes],
        first,
        second,
        count,
        lattice.counts[1],
        reads,
    )
}

// The root's value, or the refusal met on the way to it.
pub fn root_value(
    lattice: Lattice<'_>,
    events: Events<'_>,
    spread: f64,
    first: &mut [f64],
    second: &mut [f64],
) -> Result<f64, Refusal>
    requires { Walkable lattice events (length first.old) (length second.old) }
    ensures { result ≡ root_at lattice.entry events.entry spread }
{
    walk(lattice, events, spread, 0, first, second)?;
    let row = current(first, second, 0, 1);
    Ok(row[0])
}
