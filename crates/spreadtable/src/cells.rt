// A cell of 16 bytes, by what a single call answers.
ghost use Rattle.std.specs.Prelude.{◌≡◌};
ghost use Rattle.spreadtable.specs.Cells.{hash_cell, value_text, answer_text};

use bondreport::Leftward;
use bondreport::columns::blank;
use closingsheet::cell::{first_columns, value_cell};
use floats::{Reason, Refusal};

// A refusal number right behind a hash sign, right-justified.
#[tactic(auto, unfolding(crate::specs::Cells::hash_cell))]
pub fn hash_cell(number: u32) -> [u8; 16]
    ensures { result ≡ hash_cell number }
{
    first_columns(
        Leftward::before(blank(), 16)
            .whole(number as u64)
            .byte(b'#')
            .line,
    )
}

// A value as the closing sheet prints it, or 32 where it is too wide for that.
fn value_text(x: f64) -> [u8; 16]
    ensures { result ≡ value_text x }
{
    match value_cell(x) {
        Some(cell) => cell,
        None => hash_cell(Reason::TooWide.number()),
    }
}

// A value, or a refusal's number.
pub fn answer_text(answer: Result<f64, Refusal>) -> [u8; 16]
    ensures { result ≡ answer_text answer }
{
    match answer {
        Ok(x) => value_text(x),
        Err(refusal) => hash_cell(refusal.reason.number()),
    }
}
