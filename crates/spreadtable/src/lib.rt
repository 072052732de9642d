// The spread by sigma table: a page with a row for each shift and a column for each spread.
#![tactic(auto, unfolding(floats::specs::Answers::on_outcome))]

use floats::Refusal;

mod cells;
mod checks;
pub mod entry;
mod fits;
mod pages;
mod rows;
mod shifts;
mod sigmas;
mod walks;
mod writing;

// A page, zero past its length; or why there is none. It is handed to C whole, a zero page beside a refusal, and there is no heap.
#[derive(Drop)]
pub struct SpreadTable {
    pub refusal: Option<Refusal>,
    pub length: u32,
    pub page: [u8; 4112],
}

// How many spreads and how many shifts a table has.
impl SpreadTable {
    pub const FEWEST: usize = 1;

    pub const MOST: usize = 16;
}

// What is written of a page: bytes of a fixed size with a length, as C takes them.
#[derive(Drop)]
pub struct Written {
    pub page: [u8; 4112],
    pub length: usize,
}
