// The first thing wrong with a file.
ghost use Rattle.std.specs.Prelude.{◌≡◌, Ok};
ghost use Rattle.bondfile.specs.Checks.{once, at_most, verdict_of, missing, file_check};

use bondfile::FileError;
use bondfile::entries::{kind_of, number_of};
use bondfile::file::Lines;
use bondline::{Entry, Kind};

// The most bytes of a file.
const MOST_BYTES: usize = 65536;

// How many kinds of entries there are, with lines that say nothing.
const KINDS: usize = 12;

// At most one entry of a kind.
fn only_one(kind: Kind, line: usize, count: usize) -> Result<usize, FileError>
    ensures { result ≡ once kind line count }
{
    if count < 1 {
        Ok(count + 1)
    } else {
        Err(FileError::Twice(line, kind))
    }
}

// At most so many entries of a kind.
fn at_most(limit: usize, kind: Kind, line: usize, count: usize) -> Result<usize, FileError>
    ensures { result ≡ at_most limit kind line count }
{
    if count < limit {
        Ok(count + 1)
    } else {
        Err(FileError::TooMany(line, kind))
    }
}

// What a line adds: how many entries of its kind there are now.
#[tactic(auto, unfolding(bondfile::specs::Checks::verdict_of))]
fn verdict(e: Entry, line: usize, count: usize) -> Result<usize, FileError>
    ensures { result ≡ verdict_of (Ok e) line count }
{
    match e {
        Entry::Blank => Ok(0),
        Entry::Settlement(_) => only_one(Kind::Settlement, line, count),
        Entry::Units(_) => only_one(Kind::Units, line, count),
        Entry::Steps(_, _) => only_one(Kind::Steps, line, count),
        Entry::Alpha(_) => only_one(Kind::Alpha, line, count),
        Entry::Spread(_) => only_one(Kind::Spread, line, count),
        Entry::Cashflow(_, _, _) => at_most(256, Kind::Cashflow, line, count),
        Entry::Call(_, _, _) => at_most(64, Kind::Call, line, count),
        Entry::Sigma(_, _) => at_most(64, Kind::Sigma, line, count),
        Entry::Pillar(_, _) => at_most(256, Kind::Pillar, line, count),
        Entry::Yield(_, _, _) => only_one(Kind::Yield, line, count),
        Entry::Quote(_) => only_one(Kind::Quote, line, count),
    }
}

// That no field is missing.
#[tactic(auto, unfolding(bondfile::specs::Checks::missing))]
fn all_there(counts: &[usize; KINDS]) -> Result<(), FileError>
    ensures { result ≡ missing counts.now }
{
    for kind in [
        Kind::Settlement,
        Kind::Units,
        Kind::Steps,
        Kind::Alpha,
        Kind::Spread,
    ] {
        if counts[number_of(kind)] == 0 {
            return Err(FileError::Missing(kind));
        }
    }
    Ok(())
}

// The first thing wrong with a file.
pub fn checked(text: &[u8]) -> Result<(), FileError>
    ensures { result ≡ file_check text.now }
{
    if text.len() > MOST_BYTES {
        return Err(FileError::TooLarge);
    }
    let mut counts = [0; KINDS];
    for (line, said) in Lines::new(text) {
        let entry = match said {
            Ok(entry) => entry,
            Err(fault) => return Err(FileError::Wrong(line, fault)),
        };
        let kind = number_of(kind_of(entry));
        counts[kind] = verdict(entry, line, counts[kind])?;
    }
    all_there(&counts)
}
