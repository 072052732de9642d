// Rows by what each cell says, and those that are refused whole, or but for the spread's own range.
ghost use Rattle.std.specs.Prelude.{◌≡◌, ℕ, ◌+◌, ◌*◌, ◌≤◌, List, length, Float};
ghost use Rattle.spreadtable.specs.Page.{row_text};
ghost use Rattle.spreadtable.specs.laws.Writing.{appended};
ghost use Rattle.spreadtable.specs.laws.FittedOnce.{spread_cell};

use crate::Written;
use crate::cells::{answer_text, hash_cell};
use crate::writing::append;
use floats::{Reason, Refusal};
use terms::limits::Spread;
use terms::ranges::not_within;

// A cell for each spread, and a newline.
pub fn row_of<F: Fn(f64) -> [u8; 16]>(w: Written, spreads: &[f64], cell: F) -> Written
    requires room { w.length + 16 * length spreads.now + 1 ≤ 4112 }
    requires callable { (state : F) (s : Float) → F.pre state s }
    ensures { (text : Float → List ℕ) → ((s : Float) (r : List ℕ) → F.post cell s r → r ≡ text s) → result ≡ appended w (row_text text spreads.now) }
{
    let mut row = w;
    for spread in spreads {
        let text = cell(*spread);
        row = append(row, &text);
    }
    append(row, b"\n")
}

// One cell for every spread.
pub fn same_row(w: Written, spreads: &[f64], cell: [u8; 16]) -> Written
    requires { w.length + 16 * length spreads.now + 1 ≤ 4112 }
    ensures { result ≡ appended w (row_text (λ s. cell) spreads.now) }
{
    row_of(
        w,
        spreads,
        |_|
            ensures { result ≡ cell }
        { cell },
    )
}

// 4 for a spread out of its range, else what was answered before the walk.
fn stopped_cell(spread: f64, answer: Result<f64, Refusal>) -> [u8; 16]
    ensures { result ≡ spread_cell (λ s. answer) spread }
{
    if not_within(Spread::MOST, spread) {
        return hash_cell(Reason::Number.number());
    }
    answer_text(answer)
}

// Such a cell for each spread.
pub fn stopped_row(w: Written, spreads: &[f64], answer: Result<f64, Refusal>) -> Written
    requires { w.length + 16 * length spreads.now + 1 ≤ 4112 }
    ensures { result ≡ appended w (row_text (spread_cell λ s. answer) spreads.now) }
{
    row_of(
        w,
        spreads,
        |spread|
            ensures { result ≡ spread_cell (λ s. answer) spread }
        { stopped_cell(spread, answer) },
    )
}
