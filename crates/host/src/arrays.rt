// Answers that hold arrays: they are handed over whole, each output through a parameter of its own, as C lends it.

ghost use Rattle.host.specs.Books.{HandedAnswer};
ghost use Rattle.host.specs.Handed.{HandedGrid, HandedList};
ghost use Rattle.host.specs.Sheets.{HandedLine};
ghost use Rattle.host.specs.Tables.{HandedPage};

use crate::handing::hand_refusal;
use bondevents::marks::{marks_of, prices_of};
use bondevents::{GridAnswer, Side};
use bookvalue::BookAnswer;
use callnotices::CallList;
use closingsheet::ClosingLine;
use spreadtable::SpreadTable;

pub fn hand_grid(
    answer: GridAnswer,
    place: &mut u32,
    maturity: &mut f64,
    steps: &mut u32,
    cashflows: &mut [f64; 513],
    marks: &mut [u8; 513],
    prices: &mut [f64; 513],
    put_marks: &mut [u8; 513],
    put_prices: &mut [f64; 513],
) -> u32
    ensures { HandedGrid answer result place.new maturity.new steps.new cashflows.new
        marks.new prices.new put_marks.new put_prices.new }
{
    let grid = &answer.grid;
    *maturity = grid.maturity_time;
    *steps = grid.steps;
    *cashflows = grid.cashflows;
    let called = marks_of(Side::Call, &grid.calls);
    *marks = called;
    let call_priced = prices_of(Side::Call, &grid.calls);
    *prices = call_priced;
    let put = marks_of(Side::Put, &grid.calls);
    *put_marks = put;
    let put_priced = prices_of(Side::Put, &grid.calls);
    *put_prices = put_priced;
    hand_refusal(answer.refusal, place)
}

pub fn hand_list(
    answer: CallList,
    place: &mut u32,
    count: &mut u32,
    starts: &mut [u32; 64],
    ends: &mut [u32; 64],
    strikes: &mut [f64; 64],
) -> u32
    ensures { HandedList answer result place.new count.new starts.new ends.new strikes.new }
{
    let listed_starts = answer.starts;
    let listed_ends = answer.ends;
    let listed_strikes = answer.strikes;
    *count = answer.count;
    *starts = listed_starts;
    *ends = listed_ends;
    *strikes = listed_strikes;
    hand_refusal(answer.refusal, place)
}

pub fn hand_line(answer: ClosingLine, place: &mut u32, line: &mut [u8; 35]) -> u32
    ensures { HandedLine answer result place.new line.new }
{
    let printed = answer.line;
    *line = printed;
    match answer.refusal {
        None => {
            *place = 0;
            0
        }
        Some(refused) => {
            *place = refused.place;
            refused.number
        }
    }
}

pub fn hand_page(
    answer: SpreadTable,
    place: &mut u32,
    length: &mut u32,
    page: &mut [u8; 4112],
) -> u32
    ensures { HandedPage answer result place.new length.new page.new }
{
    let printed = answer.page;
    *length = answer.length;
    *page = printed;
    hand_refusal(answer.refusal, place)
}

pub fn hand_book(
    answer: BookAnswer,
    place: &mut u32,
    bond: &mut u32,
    values: &mut [f64; 32],
    sum: &mut f64,
    counts: &mut [u64; 8],
) -> u32
    ensures { HandedAnswer answer result place.new bond.new values.new sum.new counts.new }
{
    let each = answer.values;
    let desks = answer.counts;
    *bond = answer.bond;
    *values = each;
    *sum = answer.sum;
    *counts = desks;
    hand_refusal(answer.refusal, place)
}
