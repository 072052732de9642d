// The line of a bond, by what the tree value answers.
ghost use Rattle.std.specs.Prelude.{◌≡◌};
ghost use Rattle.closingsheet.specs.Cells.{value_cell};
ghost use Rattle.closingsheet.specs.Sheet.{numbered, number_line, refused_on, no_sheet, value_sheet, sheet_of};

use crate::cell::{first_columns, value_cell};
use crate::{ClosingLine, NumberedRefusal};
use bondreport::Line;
use bondreport::columns::{blank, put};
use bondreport::figures::put_whole;
use floats::Reason;
use treebasedbondpricer::TreeValue;

// The bond number, and the newline.
fn numbered(bond: u32) -> Line
    ensures { result ≡ numbered bond }
{
    put(put_whole(blank(), 6, bond as u64), 34, b"\n")
}

// A refusal's number in its columns.
fn number_line(line: Line, number: u32) -> [u8; 35]
    ensures { result ≡ number_line line number }
{
    first_columns(put_whole(line, 34, number as u64))
}

// A bond's line with the number of a refusal, whatever numbers refusals have.
pub fn refused_line(bond: u32, number: u32) -> [u8; 35]
    ensures { result ≡ number_line (numbered bond) number }
{
    number_line(numbered(bond), number)
}

fn refused_on(line: Line, refusal: NumberedRefusal) -> ClosingLine
    ensures { result ≡ refused_on line refusal }
{
    ClosingLine {
        refusal: Some(refusal),
        line: number_line(line, refusal.number),
    }
}

// A value and its count, or 32 with both blank where one of them is too wide.
fn value_sheet(bond: u32, x: f64, count: u64) -> ClosingLine
    ensures { result ≡ value_sheet bond (value_cell x) count }
{
    let start = numbered(bond);
    let too_wide = NumberedRefusal {
        number: Reason::TooWide.number(),
        place: 0,
    };
    match value_cell(x) {
        Some(cell) if count <= ClosingLine::MOST_NODES => ClosingLine {
            refusal: None,
            line: first_columns(put(put_whole(start, 30, count), 6, &cell)),
        },
        _ => refused_on(start, too_wide),
    }
}

// A bond number out of range: 31, and a line of zeros.
fn no_sheet() -> ClosingLine
    ensures { result ≡ no_sheet }
{
    let refusal = NumberedRefusal {
        number: Reason::BondNumber.number(),
        place: 0,
    };
    ClosingLine {
        refusal: Some(refusal),
        line: [0; 35],
    }
}

// The bond number first, then the answer.
#[tactic(auto, unfolding(crate::specs::Sheet::sheet_by, crate::specs::Sheet::answer_sheet))]
pub fn line_of(bond: u32, answer: Result<TreeValue, NumberedRefusal>) -> ClosingLine
    ensures { result ≡ sheet_of bond answer }
{
    if bond < ClosingLine::FIRST_BOND || bond > ClosingLine::LAST_BOND {
        return no_sheet();
    }
    match answer {
        Ok(TreeValue { value, nodes }) => value_sheet(bond, value, nodes),
        Err(refusal) => ClosingLine {
            refusal: Some(refusal),
            line: refused_line(bond, refusal.number),
        },
    }
}
