// The lists of a file, stored in order. They lie side by side as C callers give them, which the pricing functions take.
ghost use Rattle.bondfile.specs.Storing.{CashflowsStored, CallsStored, SigmasStored, PillarsStored};

use crate::entries::number_of;
use crate::lists::{
    entry_lines, first_numbers, first_wholes, flow_kinds, second_numbers, second_wholes,
};
use bondline::Kind;

// The cashflows: how many days were stored. A slice too short holds as many as it has room for.
pub fn cashflows_of(
    text: &[u8],
    days: &mut [u32],
    kinds: &mut [u8],
    amounts: &mut [f64],
    lines: &mut [usize],
) -> usize
    ensures { CashflowsStored text.now days.old days.new kinds.old kinds.new amounts.old amounts.new lines.old lines.new result }
{
    flow_kinds(text, number_of(Kind::Cashflow), kinds);
    first_numbers(text, number_of(Kind::Cashflow), amounts);
    entry_lines(text, number_of(Kind::Cashflow), lines);
    first_wholes(text, number_of(Kind::Cashflow), days)
}

// The calls: how many starts were stored.
pub fn calls_of(
    text: &[u8],
    starts: &mut [u32],
    ends: &mut [u32],
    strikes: &mut [f64],
    lines: &mut [usize],
) -> usize
    ensures { CallsStored text.now starts.old starts.new ends.old ends.new strikes.old strikes.new lines.old lines.new result }
{
    second_wholes(text, number_of(Kind::Call), ends);
    first_numbers(text, number_of(Kind::Call), strikes);
    entry_lines(text, number_of(Kind::Call), lines);
    first_wholes(text, number_of(Kind::Call), starts)
}

// The sigma entries: how many times were stored.
pub fn sigmas_of(text: &[u8], times: &mut [f64], sigmas: &mut [f64], lines: &mut [usize]) -> usize
    ensures { SigmasStored text.now times.old times.new sigmas.old sigmas.new lines.old lines.new result }
{
    second_numbers(text, number_of(Kind::Sigma), sigmas);
    entry_lines(text, number_of(Kind::Sigma), lines);
    first_numbers(text, number_of(Kind::Sigma), times)
}

// The pillars: how many days were stored.
pub fn pillars_of(text: &[u8], days: &mut [u32], factors: &mut [f64], lines: &mut [usize]) -> usize
    ensures { PillarsStored text.now days.old days.new factors.old factors.new lines.old lines.new result }
{
    first_numbers(text, number_of(Kind::Pillar), factors);
    entry_lines(text, number_of(Kind::Pillar), lines);
    first_wholes(text, number_of(Kind::Pillar), days)
}
