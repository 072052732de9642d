// The forms of a line.
ghost use Rattle.std.specs.Prelude.{◌≡◌};
ghost use Rattle.bondline.specs.Forms.{number_form, settlement_form, steps_form, cashflow_form, call_form, sigma_form, pillar_form, yield_form, kind_named, form_of, body_entry};

use crate::values::{compounding_at, count_at, day_at, frequency_at, kind_at, number_at, shape};
use crate::words::{column_of, has_word, place_in, word_at};
use crate::{Cause, Entry, Fault, Kind};

#[tactic(auto, unfolding(crate::specs::Forms::settlement_form))]
fn settlement_form(line: &[u8]) -> Result<Entry, Fault>
    ensures { result ≡ settlement_form line.now }
{
    shape(line, 1)?;
    Ok(Entry::Settlement(day_at(line, 1)?))
}

// A line with one number behind its name.
#[tactic(auto, unfolding(crate::specs::Forms::number_form))]
fn number_form(line: &[u8]) -> Result<f64, Fault>
    ensures { result ≡ number_form line.now }
{
    shape(line, 1)?;
    number_at(line, 1)
}

#[tactic(auto, unfolding(crate::specs::Forms::steps_form))]
fn steps_form(line: &[u8]) -> Result<Entry, Fault>
    ensures { result ≡ steps_form line.now }
{
    shape(line, 2)?;
    Ok(Entry::Steps(count_at(line, 1)?, count_at(line, 2)?))
}

#[tactic(auto, unfolding(crate::specs::Forms::cashflow_form))]
fn cashflow_form(line: &[u8]) -> Result<Entry, Fault>
    ensures { result ≡ cashflow_form line.now }
{
    shape(line, 3)?;
    Ok(Entry::Cashflow(day_at(line, 1)?, kind_at(line, 2)?, number_at(line, 3)?))
}

#[tactic(auto, unfolding(crate::specs::Forms::call_form))]
fn call_form(line: &[u8]) -> Result<Entry, Fault>
    ensures { result ≡ call_form line.now }
{
    shape(line, 3)?;
    Ok(Entry::Call(day_at(line, 1)?, day_at(line, 2)?, number_at(line, 3)?))
}

#[tactic(auto, unfolding(crate::specs::Forms::sigma_form))]
fn sigma_form(line: &[u8]) -> Result<Entry, Fault>
    ensures { result ≡ sigma_form line.now }
{
    shape(line, 2)?;
    Ok(Entry::Sigma(number_at(line, 1)?, number_at(line, 2)?))
}

#[tactic(auto, unfolding(crate::specs::Forms::pillar_form))]
fn pillar_form(line: &[u8]) -> Result<Entry, Fault>
    ensures { result ≡ pillar_form line.now }
{
    shape(line, 2)?;
    Ok(Entry::Pillar(day_at(line, 1)?, number_at(line, 2)?))
}

#[tactic(auto, unfolding(crate::specs::Forms::yield_form))]
fn yield_form(line: &[u8]) -> Result<Entry, Fault>
    ensures { result ≡ yield_form line.now }
{
    shape(line, 3)?;
    Ok(Entry::Yield(
        number_at(line, 1)?,
        compounding_at(line, 2)?,
        frequency_at(line, 3)?,
    ))
}

// The values of a line of a kind.
#[tactic(auto, unfolding(crate::specs::Forms::form_of, crate::specs::Forms::units_form, crate::specs::Forms::alpha_form, crate::specs::Forms::spread_form, crate::specs::Forms::quote_form))]
fn form_of(kind: Kind, line: &[u8]) -> Result<Entry, Fault>
    ensures { result ≡ form_of kind line.now }
{
    match kind {
        Kind::Blank => Ok(Entry::Blank),
        Kind::Settlement => settlement_form(line),
        Kind::Units => Ok(Entry::Units(number_form(line)?)),
        Kind::Steps => steps_form(line),
        Kind::Alpha => Ok(Entry::Alpha(number_form(line)?)),
        Kind::Spread => Ok(Entry::Spread(number_form(line)?)),
        Kind::Cashflow => cashflow_form(line),
        Kind::Call => call_form(line),
        Kind::Sigma => sigma_form(line),
        Kind::Pillar => pillar_form(line),
        Kind::Yield => yield_form(line),
        Kind::Quote => Ok(Entry::Quote(number_form(line)?)),
    }
}

// The kinds in the order of their names. The last name is the bond's own: its line says nothing of the terms.
const KINDS: [Kind; 12] = [
    Kind::Settlement,
    Kind::Units,
    Kind::Steps,
    Kind::Alpha,
    Kind::Spread,
    Kind::Cashflow,
    Kind::Call,
    Kind::Sigma,
    Kind::Pillar,
    Kind::Yield,
    Kind::Quote,
    Kind::Blank,
];

// The kind of a line by its name.
#[tactic(auto, unfolding(crate::specs::Forms::kind_named))]
pub fn kind_named(name: &[u8]) -> Option<Kind>
    ensures { result ≡ kind_named name.now }
{
    let names = b"settlement units steps alpha spread cashflow call sigma pillar yield quote name";
    let place = place_in(name, names, KINDS.len())?;
    Some(KINDS[place])
}

// What the words of a line say.
#[tactic(auto, unfolding(crate::specs::Forms::body_entry))]
pub fn body_entry(line: &[u8]) -> Result<Entry, Fault>
    ensures { result ≡ body_entry line.now }
{
    if !has_word(line, 0) {
        return Ok(Entry::Blank);
    }
    let kind = kind_named(word_at(line, 0)).ok_or(Fault {
        column: column_of(line, 0),
        cause: Cause::UnknownWord,
    })?;
    form_of(kind, line)
}
