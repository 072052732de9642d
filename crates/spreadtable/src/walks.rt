// A row's cells over one fitted tree: a walk for each spread.
ghost use Rattle.std.specs.Prelude.{◌≡◌, ◌+◌, ◌*◌, ◌≤◌, length};
ghost use Rattle.rollback.specs.Walking.{root_at, Walkable};
ghost use Rattle.spreadtable.specs.Page.{row_text};
ghost use Rattle.spreadtable.specs.laws.Writing.{appended};
ghost use Rattle.spreadtable.specs.laws.FittedOnce.{spread_cell};

use crate::Written;
use crate::cells::{answer_text, hash_cell};
use crate::writing::append;
use floats::Reason;
use rollback::walking::{Events, Lattice, root_value};
use terms::limits::Spread;
use terms::ranges::not_within;

// 4 for a spread out of its range, else what the walk gives.
fn walked_cell(
    lattice: Lattice<'_>,
    events: Events<'_>,
    spread: f64,
    first: &mut [f64],
    second: &mut [f64],
) -> [u8; 16]
    requires { Walkable lattice events (length first.old) (length second.old) }
    ensures { result ≡ spread_cell (root_at lattice.entry events.entry) spread }
{
    if not_within(Spread::MOST, spread) {
        return hash_cell(Reason::Number.number());
    }
    let answer = root_value(lattice, events, spread, first, second);
    answer_text(answer)
}

// Such a cell for each spread. Not by `row_of`: its closure is called by `&`, and this one would lend the two rows by `&mut`.
pub fn walked_row(
    w: Written,
    lattice: Lattice<'_>,
    events: Events<'_>,
    spreads: &[f64],
    first: &mut [f64],
    second: &mut [f64],
) -> Written
    requires spreads_bound { w.length + 16 * length spreads.now + 1 ≤ 4112 }
    requires walkable { Walkable lattice events (length first.old) (length second.old) }
    ensures { result ≡ appended w (row_text (spread_cell (root_at lattice.entry events.entry)) spreads.now) }
{
    let mut row = w;
    for spread in spreads {
        let cell = walked_cell(lattice, events, *spread, first, second);
        row = append(row, &cell);
    }
    append(row, b"\n")
}
