// Dates, decimals and bits in a line.
ghost use Rattle.std.specs.Prelude.{◌≡◌, ◌≤◌};
ghost use Rattle.bondreport.specs.Figures.{date_left, point_left, minus_left, decimals_left, put_whole, put_date, put_decimals, put_bits};

use crate::columns::put;
use crate::{Leftward, Line};
use calendar::Date;
use calendar::dates::date_of;
use decimal::Rounded;
use decimal::writing::{decimals, hex_digits};

impl Leftward {
    // A date as YYYY-MM-DD.
    fn date(self, date: Date) -> Leftward
        ensures { result ≡ date_left self date }
    {
        self.digits(2, date.day as u64)
            .byte(b'-')
            .digits(2, date.month as u64)
            .byte(b'-')
            .digits(4, date.year as u64)
    }

    // A point where there are decimals.
    #[tactic(auto, unfolding(crate::specs::Figures::point_left))]
    fn point(self, places: u32) -> Leftward
        ensures { result ≡ point_left self places }
    {
        if places == 0 { self } else { self.byte(b'.') }
    }

    // A minus, but not before a zero.
    #[tactic(auto, unfolding(crate::specs::Figures::minus_left))]
    fn minus(self, x: Rounded) -> Leftward
        ensures { result ≡ minus_left self x }
    {
        if x.negative && (x.whole > 0 || x.part > 0) {
            self.byte(b'-')
        } else {
            self
        }
    }

    // The decimals, the point, the whole part and the sign.
    pub fn decimals(self, places: u32, x: Rounded) -> Leftward
        ensures { result ≡ decimals_left self places x }
    {
        self.digits(places as usize, x.part)
            .point(places)
            .whole(x.whole)
            .minus(x)
    }
}

// A whole number.
pub fn put_whole(line: Line, end: usize, n: u64) -> Line
    ensures { result ≡ put_whole line end n }
{
    Leftward::before(line, end).whole(n).line
}

// A day's date, or its number where it has none.
pub fn put_date(line: Line, end: usize, day: u32) -> Line
    ensures { result ≡ put_date line end day }
{
    match date_of(day) {
        Some(date) => Leftward::before(line, end).date(date).line,
        None => put_whole(line, end, day as u64),
    }
}

// A number to some decimals, or the word for one that has none.
pub fn put_decimals(line: Line, end: usize, x: f64, places: u32) -> Line
    requires { 6 ≤ end }
    ensures { result ≡ put_decimals line end x places }
{
    match decimals(x, places) {
        Some(shown) => Leftward::before(line, end).decimals(places, shown).line,
        None => put(line, end - 6, b"beyond"),
    }
}

// The sixteen hexadecimal digits of a number's bits; a NaN has none.
#[tactic(auto, using(crate::proofs::Figuring::itself))]
pub fn put_bits(line: Line, at: usize, x: f64) -> Line
    ensures { result ≡ put_bits line at x }
{
    if x.is_nan() {
        put(line, at, b"----------------")
    } else {
        put(line, at, &hex_digits(f64::to_bits(x)))
    }
}
