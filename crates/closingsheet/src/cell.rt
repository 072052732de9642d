// A value in 16 columns.
ghost use Rattle.std.specs.Prelude.{◌≡◌, ◌≤◌, take};
ghost use Rattle.closingsheet.specs.Cells.{fitted_cell, value_cell};

use crate::printed::printed;
use bondreport::columns::blank;
use bondreport::{Leftward, Line};

// The first columns of a line.
pub fn first_columns<const N: usize>(line: Line) -> [u8; N]
    requires { N ≤ 80 }
    ensures { result ≡ take N line }
{
    let mut columns = [b' '; N];
    columns.copy_from_slice(&line[..N]);
    columns
}

// A value with two decimals, right-justified, without a sign on a zero; none where it is too wide.
pub fn value_cell(x: f64) -> Option<[u8; 16]>
    ensures { result ≡ fitted_cell (value_cell x) }
{
    match printed(x) {
        Some(shown) => Some(first_columns(Leftward::before(blank(), 16).decimals(2, shown).line)),
        None => None,
    }
}
