// A decimal number from a word's bytes.
ghost use Rattle.std.specs.Prelude.{◌≡◌, ◌≤◌};
ghost use Rattle.decimal.specs.Decimal.{fresh, with_point, with_digit, step, finish, read_from, read_decimal};

use crate::ReadError;
use crate::division::nearest;

// The least number that has seventeen digits, and the most decimals.
const SEVENTEEN_DIGITS: u64 = 10_000_000_000_000_000;

const MOST_PLACES: u32 = 22;

// What has been read: the digits as one number, how many of them are decimals, whether the point stood, and whether a digit came last.
#[derive(Clone, Copy)]
struct Reading {
    digits: u64,
    places: u32,
    pointed: bool,
    ready: bool,
}

const FRESH: Reading = Reading {
    digits: 0,
    places: 0,
    pointed: false,
    ready: false,
};

// A point more.
#[tactic(auto, unfolding(crate::specs::Decimal::with_point))]
fn with_point(s: Reading, column: usize) -> Result<Reading, ReadError>
    ensures { result ≡ with_point s column }
{
    if s.pointed || !s.ready {
        return Err(ReadError::Malformed(column));
    }
    Ok(Reading {
        pointed: true,
        ready: false,
        ..s
    })
}

// A digit more.
#[tactic(auto, unfolding(crate::specs::Decimal::with_digit))]
fn with_digit(s: Reading, digit: u64, column: usize) -> Result<Reading, ReadError>
    requires { digit ≤ 9 }
    ensures { result ≡ with_digit s digit column }
{
    if s.digits >= SEVENTEEN_DIGITS || s.pointed && s.places >= MOST_PLACES {
        return Err(ReadError::TooLong(column));
    }
    Ok(Reading {
        digits: s.digits * 10 + digit,
        places: if s.pointed { s.places + 1 } else { s.places },
        ready: true,
        ..s
    })
}

// A byte more.
#[tactic(auto, unfolding(crate::specs::Decimal::step))]
fn stepped(s: Reading, byte: u8, column: usize) -> Result<Reading, ReadError>
    ensures { result ≡ step s byte column }
{
    match byte {
        b'.' => with_point(s, column),
        b'0'..=b'9' => with_digit(s, u64::from(byte - b'0'), column),
        _ => Err(ReadError::Malformed(column)),
    }
}

// The end of the word.
#[tactic(auto, unfolding(crate::specs::Decimal::finish))]
fn finished(negative: bool, s: Reading, column: usize) -> Result<f64, ReadError>
    requires { s.places ≤ 22 }
    ensures { result ≡ finish negative s column }
{
    if s.ready {
        Ok(nearest(negative, s.digits, s.places))
    } else {
        Err(ReadError::Malformed(column))
    }
}

// The bytes behind the sign, the first of which stands at a column.
#[tactic(auto, using(crate::proofs::reading::Steps::steps))]
fn read_from(text: &[u8], negative: bool, start: usize) -> Result<f64, ReadError>
    requires { start ≤ 1 }
    ensures { result ≡ read_from negative fresh start text.now }
{
    let mut s = FRESH;
    for (i, byte) in text.iter().enumerate() {
        s = stepped(s, *byte, start + i)?;
    }
    finished(negative, s, start + text.len())
}

// A word as a decimal number.
#[tactic(auto, using(crate::proofs::reading::Steps::steps))]
pub fn read(text: &[u8]) -> Result<f64, ReadError>
    ensures { result ≡ read_decimal text.now }
{
    match text {
        [] => Err(ReadError::Malformed(0)),
        [b'-', rest @ ..] => read_from(rest, true, 1),
        _ => read_from(text, false, 0),
    }
}
