// The closing sheet: a line of 35 bytes for a bond.
#![tactic(auto, unfolding(floats::specs::Answers::on_outcome))]

ghost use Rattle.std.specs.Prelude.{◌≡◌};
ghost use Rattle.closingsheet.specs.Sheet.{with_number};

use floats::Refusal;

pub mod cell;
pub mod entry;
pub mod line;
mod printed;

// A refusal by its number: any number, also one that no reason has.
#[derive(Clone, Copy, Debug, PartialEq, Eq)]
pub struct NumberedRefusal {
    pub number: u32,
    pub place: u32,
}

impl From<Refusal> for NumberedRefusal {
    ghost from_gives = { λ q numbered. numbered ≡ with_number q };

    fn from(refusal: Refusal) -> NumberedRefusal {
        NumberedRefusal {
            number: refusal.reason.number(),
            place: refusal.place,
        }
    }
}

// A bond's line, and why it has no value: a refused bond has a line too.
#[derive(Drop)]
pub struct ClosingLine {
    pub refusal: Option<NumberedRefusal>,
    pub line: [u8; 35],
}

// The sheet's limits.
impl ClosingLine {
    pub const FIRST_BOND: u32 = 1;

    pub const LAST_BOND: u32 = 999_999;

    pub const MOST_NODES: u64 = 99_999_999;

    pub const MOST_WHOLE: u64 = 999_999_999_999;
}
