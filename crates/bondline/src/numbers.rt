// Whole numbers and days, from their words.
ghost use Rattle.std.specs.Prelude.{◌≡◌, true, ◌≤◌, length, IfErr};
ghost use Rattle.bondline.specs.Numbers.{whole_of, date_shaped, part_of, date_of, day_of};

use crate::DayError;
use calendar::numbers::day_number;

// The most digits of a whole number.
const MOST_DIGITS: usize = 9;

// A whole number; or where its word is malformed.
#[tactic(auto, using(crate::proofs::Reading::whole_more, crate::proofs::Reading::whole_all, crate::proofs::Reading::below, crate::proofs::Reading::longer), unfolding(crate::specs::Numbers::whole_of))]
pub fn whole(word: &[u8]) -> Result<u32, usize>
    ensures value { result ≡ whole_of word.now }
    ensures within { IfErr result (λ at. at ≤ length word.now) }
{
    if word.is_empty() {
        return Err(0);
    }
    let mut value = 0;
    for (i, byte) in word.iter().enumerate() {
        match *byte {
            b'0'..=b'9' if i < MOST_DIGITS => value = value * 10 + u32::from(*byte - b'0'),
            _ => return Err(i),
        }
    }
    Ok(value)
}

// Whether a word has a date's shape.
#[tactic(auto, unfolding(crate::specs::Numbers::date_shaped))]
fn is_date_shaped(word: &[u8]) -> bool
    ensures shaped { result ≡ date_shaped word.now }
    ensures long { result ≡ true → length word.now ≡ 10 }
{
    word.len() == 10 && word[4] == b'-' && word[7] == b'-'
}

// A part of a word, as a whole number.
#[tactic(auto, unfolding(crate::specs::Numbers::part_of))]
fn part(word: &[u8], start: usize, end: usize) -> Result<u32, DayError>
    requires { (start ≤ end) × (end ≤ length word.now) }
    ensures { result ≡ part_of start end word.now }
{
    whole(&word[start..end]).map_err(|at| DayError::NotDay(start + at))
}

// The day of a word of a date's shape.
#[tactic(auto, unfolding(crate::specs::Numbers::date_of))]
fn date(word: &[u8]) -> Result<u32, DayError>
    requires { length word.now ≡ 10 }
    ensures { result ≡ date_of word.now }
{
    let year = part(word, 0, 4)?;
    let month = part(word, 5, 7)?;
    let day = part(word, 8, 10)?;
    day_number(year, month, day).map_err(DayError::NotDate)
}

// A day.
#[tactic(auto, unfolding(crate::specs::Numbers::day_of))]
pub fn day(word: &[u8]) -> Result<u32, DayError>
    ensures { result ≡ day_of word.now }
{
    if is_date_shaped(word) {
        return date(word);
    }
    whole(word).map_err(DayError::NotDay)
}
