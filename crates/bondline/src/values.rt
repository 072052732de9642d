// The values of a line's words.
ghost use Rattle.std.specs.Prelude.{◌≡◌, ◌<◌, IfOk};
ghost use Rattle.bondline.specs.Values.{column_in, count_at, day_fault, day_at, number_fault, number_at, choice_at, kind_at, compounding_at, frequency_at, shape_of};

use crate::numbers::{day, whole};
use crate::words::{column_of, has_word, place_in, word_at};
use crate::{Cause, DayError, Fault};
use calendar::DateError;
use decimal::ReadError;
use decimal::reading::read;

// The column of a place within a word.
#[tactic(auto, unfolding(crate::specs::Values::column_in))]
pub fn column_in(line: &[u8], n: usize, at: usize) -> usize
    ensures { result ≡ column_in line.now n at }
{
    column_of(line, n) + at.min(word_at(line, n).len())
}

// A count.
#[tactic(auto, unfolding(crate::specs::Values::count_at))]
pub fn count_at(line: &[u8], n: usize) -> Result<u32, Fault>
    ensures { result ≡ count_at line.now n }
{
    whole(word_at(line, n)).map_err(|at| Fault {
        column: column_in(line, n, at),
        cause: Cause::NotACount,
    })
}

// Why a word gives no day, at its column.
#[tactic(auto, unfolding(crate::specs::Values::day_fault))]
fn day_fault(line: &[u8], n: usize, error: DayError) -> Fault
    ensures { result ≡ day_fault line.now n error }
{
    match error {
        DayError::NotDay(at) => Fault {
            column: column_in(line, n, at),
            cause: Cause::NotADay,
        },
        DayError::NotDate(DateError::NoSuchDate) => Fault {
            column: column_of(line, n),
            cause: Cause::NoDate,
        },
        DayError::NotDate(DateError::OutOfRange) => Fault {
            column: column_of(line, n),
            cause: Cause::DateOutside,
        },
    }
}

// A day.
#[tactic(auto, unfolding(crate::specs::Values::day_at))]
pub fn day_at(line: &[u8], n: usize) -> Result<u32, Fault>
    ensures { result ≡ day_at line.now n }
{
    day(word_at(line, n)).map_err(|error| day_fault(line, n, error))
}

// Why a word gives no number, at its column.
#[tactic(auto, unfolding(crate::specs::Values::number_fault))]
fn number_fault(line: &[u8], n: usize, error: ReadError) -> Fault
    ensures { result ≡ number_fault line.now n error }
{
    match error {
        ReadError::Malformed(at) => Fault {
            column: column_in(line, n, at),
            cause: Cause::NotANumber,
        },
        ReadError::TooLong(at) => Fault {
            column: column_in(line, n, at),
            cause: Cause::LongNumber,
        },
    }
}

// A number.
#[tactic(auto, unfolding(crate::specs::Values::number_at))]
pub fn number_at(line: &[u8], n: usize) -> Result<f64, Fault>
    ensures { result ≡ number_at line.now n }
{
    read(word_at(line, n)).map_err(|error| number_fault(line, n, error))
}

// A word's place among those that may stand there.
#[tactic(auto, unfolding(crate::specs::Values::choice_at))]
fn choice_at(
    line: &[u8],
    n: usize,
    words: &[u8],
    count: usize,
    cause: Cause,
) -> Result<usize, Fault>
    ensures choice { result ≡ choice_at line.now n words.now count cause }
    ensures within { IfOk result (λ k. k < count) }
{
    place_in(word_at(line, n), words, count).ok_or(Fault {
        column: column_of(line, n),
        cause,
    })
}

// A cashflow's kind: 0 coupon, 1 redemption.
#[tactic(auto, unfolding(crate::specs::Values::kind_at))]
pub fn kind_at(line: &[u8], n: usize) -> Result<u8, Fault>
    ensures { result ≡ kind_at line.now n }
{
    let place = choice_at(line, n, b"coupon redemption", 2, Cause::NotAKind)?;
    Ok(place as u8)
}

// A compounding's code.
#[tactic(auto, unfolding(crate::specs::Values::compounding_at))]
pub fn compounding_at(line: &[u8], n: usize) -> Result<u32, Fault>
    ensures { result ≡ compounding_at line.now n }
{
    let words = b"simple compounded continuous simple-then-compounded compounded-then-simple";
    let place = choice_at(line, n, words, 5, Cause::NotACompounding)?;
    Ok(place as u32)
}

const FREQUENCIES: [u32; 11] = [1, 2, 3, 4, 6, 12, 13, 26, 52, 365, 999];

// A frequency's code.
#[tactic(auto, unfolding(crate::specs::Values::frequency_at))]
pub fn frequency_at(line: &[u8], n: usize) -> Result<u32, Fault>
    ensures { result ≡ frequency_at line.now n }
{
    let words =
        b"annual semiannual every-fourth-month quarterly bimonthly monthly every-fourth-week biweekly weekly daily other";
    let place = choice_at(line, n, words, FREQUENCIES.len(), Cause::NotAFrequency)?;
    Ok(FREQUENCIES[place])
}

// That a line has n values.
#[tactic(auto, unfolding(crate::specs::Values::shape_of))]
pub fn shape(line: &[u8], n: usize) -> Result<(), Fault>
    requires { n < 4 }
    ensures { result ≡ shape_of line.now n }
{
    if !has_word(line, n) {
        return Err(Fault {
            column: column_of(line, 0),
            cause: Cause::TooFewWords,
        });
    }
    if has_word(line, n + 1) {
        return Err(Fault {
            column: column_of(line, n + 1),
            cause: Cause::TooManyWords,
        });
    }
    Ok(())
}
