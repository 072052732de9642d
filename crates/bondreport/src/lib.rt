// The lines of the report on a bond: 80 bytes each, blank where nothing stands, and the order in which its calls are read out.

#![tactic(auto)]

pub mod columns;
pub mod figures;
pub mod numbers;
pub mod order;

ghost use Rattle.std.specs.Prelude.{◌≡◌};
ghost use Rattle.bondreport.specs.Figures.{before};

// The columns of a line.
const WIDTH: usize = 80;

pub type Line = [u8; WIDTH];

// A line and the column before which the next byte goes: numbers are put from their last digit on.
#[derive(Clone, Copy)]
pub struct Leftward {
    pub line: Line,
    pub end: usize,
}

impl Leftward {
    // A line that is filled leftwards from before a column.
    pub fn before(line: Line, end: usize) -> Leftward
        ensures { result ≡ before line end }
    {
        Leftward { line, end }
    }
}
