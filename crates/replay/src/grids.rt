// The event grid, kind 12: at most 24 steps.

use crate::inputs::{Inputs, bond_fits};
use crate::record::Record;
use bondevents::{Exercise, GridAnswer};

// Whether a step is what the record holds of it.
fn same_step(record: &Record, step: usize, cashflow: f64, call: Exercise, put: Exercise) -> bool {
    if step > 24 {
        return false;
    }
    let called = record.number(123 + step) == 1;
    let given_back = record.number(173 + step) == 1;
    called == call.marked
        && cashflow == record.float(98 + step)
        && call.price == record.float(148 + step)
        && given_back == put.marked
        && put.price == record.float(198 + step)
}

fn same_grid(answer: GridAnswer, record: &Record) -> bool {
    let grid = answer.grid;
    let flows = grid.cashflows;
    let calls = grid.calls;
    record.is_refused(answer.refusal)
        && grid.steps == record.number(97)
        && grid.maturity_time == record.float(95)
        && (0..25).all(|step| same_step(
            record,
            step,
            flows[step],
            calls[step].call,
            calls[step].put,
        ))
}

pub(crate) fn same(record: &Record) -> bool {
    if !bond_fits(record) {
        return false;
    }
    let held = Inputs::read(record);
    let market = held.market();
    let answer = eventgrid::grid::bond_event_grid(
        market.settlement,
        market.bond,
        held.calls(),
        market.controls,
    );
    same_grid(answer, record)
}
