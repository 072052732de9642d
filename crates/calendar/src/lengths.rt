// The lengths of years and months.
ghost use Rattle.std.specs.Prelude.{◌≡◌};
ghost use Rattle.calendar.specs.Calendar.{leap, year_length, month_length};

// Whether a year has a 29 February.
#[tactic(auto, unfolding(crate::specs::Calendar::leap))]
pub fn is_leap(year: u32) -> bool
    ensures { result ≡ leap year }
{
    if year % 100 == 0 {
        year % 400 == 0
    } else {
        year % 4 == 0
    }
}

// The days of a year.
#[tactic(auto, unfolding(crate::specs::Calendar::year_length))]
pub fn year_length(year: u32) -> u32
    ensures { result ≡ year_length year }
{
    if is_leap(year) { 366 } else { 365 }
}

// The days of a month.
#[tactic(auto, unfolding(crate::specs::Calendar::month_length))]
pub fn month_length(year: u32, month: u32) -> u32
    ensures { result ≡ month_length year month }
{
    match month {
        2 if is_leap(year) => 29,
        2 => 28,
        4 | 6 | 9 | 11 => 30,
        _ => 31,
    }
}
