// The single fields of a file.
ghost use Rattle.std.specs.Prelude.{◌≡◌, Ok};
ghost use Rattle.bondfile.specs.Entries.{number_of, first_whole, second_whole, first_number};
ghost use Rattle.bondfile.specs.File.{field_of};
ghost use Rattle.bondfile.specs.Storing.{FieldsRead};

use crate::Fields;
use crate::entries::{first_number, first_whole, number_of, second_whole};
use crate::file::OfNumber;
use bondline::{Entry, Fault, Kind};

// What the first entry of a kind says, by its number.
pub fn first_said(text: &[u8], kind: usize) -> Result<Entry, Fault>
    ensures { result ≡ field_of kind text.now }
{
    match OfNumber::new(text, kind).next() {
        Some(found) => found.entry,
        None => Ok(Entry::Blank),
    }
}

// The first entry of a kind: a kind is never a refused line's.
pub fn first_of(text: &[u8], kind: Kind) -> Entry
    ensures { Ok result ≡ field_of (number_of kind) text.now }
{
    match first_said(text, number_of(kind)) {
        Ok(entry) => entry,
        Err(_) => Entry::Blank,
    }
}

// The single fields, zero where one is missing.
pub fn fields_of(text: &[u8]) -> Fields
    ensures { FieldsRead text.now result }
{
    let steps = first_said(text, number_of(Kind::Steps));
    Fields {
        settlement: first_whole(first_said(text, number_of(Kind::Settlement))),
        units: first_number(first_said(text, number_of(Kind::Units))),
        yearly: first_whole(steps),
        maximum: second_whole(steps),
        alpha: first_number(first_said(text, number_of(Kind::Alpha))),
        spread: first_number(first_said(text, number_of(Kind::Spread))),
    }
}
