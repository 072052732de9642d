// Rate definitions from their codes, and what follows from one: the frequency as a number, and the lowest yield.
ghost use Rattle.std.specs.Prelude.{◌≡◌};
ghost use Rattle.interestrate.specs.Rates.{frequency_of, frequency_float, rate_of, lowest_yield};
ghost use Rattle.interestrate.specs.laws.Found.{found_check};

use crate::{Compounding, Frequency, RateDefinition};
use floats::{Reason, Refusal};

// From code to frequency, or 9.
#[tactic(auto, unfolding(crate::specs::Rates::with_code))]
pub fn frequency_of(code: u32) -> Result<Frequency, Refusal>
    ensures { result ≡ frequency_of code }
{
    match code {
        1 => Ok(Frequency::Annual),
        2 => Ok(Frequency::Semiannual),
        3 => Ok(Frequency::EveryFourthMonth),
        4 => Ok(Frequency::Quarterly),
        6 => Ok(Frequency::Bimonthly),
        12 => Ok(Frequency::Monthly),
        13 => Ok(Frequency::EveryFourthWeek),
        26 => Ok(Frequency::Biweekly),
        52 => Ok(Frequency::Weekly),
        365 => Ok(Frequency::Daily),
        999 => Ok(Frequency::OtherFrequency),
        _ => Err(Refusal {
            reason: Reason::Rate,
            place: 0,
        }),
    }
}

// A frequency as a number.
pub fn frequency_value(f: Frequency) -> f64
    ensures { result ≡ frequency_float f }
{
    f.per_year() as f64
}

// From the two codes to a rate definition, or 9. Simple and Continuous don't use the frequency.
#[tactic(auto, unfolding(floats::specs::Answers::on_outcome, crate::specs::Rates::rate_of))]
pub fn rate_of(compounding: u32, frequency: u32) -> Result<RateDefinition, Refusal>
    ensures { result ≡ rate_of compounding frequency }
{
    let compounding = match compounding {
        0 => Compounding::Simple,
        1 => Compounding::Compounded(frequency_of(frequency)?),
        2 => Compounding::Continuous,
        3 => Compounding::SimpleThenCompounded(frequency_of(frequency)?),
        4 => Compounding::CompoundedThenSimple(frequency_of(frequency)?),
        _ => {
            return Err(Refusal {
                reason: Reason::Rate,
                place: 0,
            });
        }
    };
    Ok(RateDefinition { compounding })
}

// The lowest yield that is tried: −0.999999 × frequency where it is used, else −10.
pub fn lowest_yield(compounding: Compounding) -> f64
    ensures { result ≡ lowest_yield compounding }
{
    match compounding {
        Compounding::Simple | Compounding::Continuous => -10.0,
        Compounding::Compounded(f)
        | Compounding::SimpleThenCompounded(f)
        | Compounding::CompoundedThenSimple(f) => -0.999999 * frequency_value(f),
    }
}

// What the codes give, as a check of the input.
pub fn rate_check(found: Result<RateDefinition, Refusal>) -> Result<(), Refusal>
    ensures { result ≡ found_check found }
{
    found?;
    Ok(())
}
