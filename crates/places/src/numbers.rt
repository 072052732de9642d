// Refusal 4: units, alpha, spread, amounts, strikes, sigma, factors.
ghost use Rattle.std.specs.Prelude.{◌≡◌};
ghost use Rattle.places.specs.Places.{amount_wrong, strike_wrong, up_to_wrong, sigma_wrong, whose_field, whose_number};

use crate::Whose;
use terms::limits::{Alpha, CallEntries, Cashflows, SigmaEntries, Spread, Units};
use terms::lists::number_at;
use terms::market::{CallSchedule, Leg, SigmaSchedule};
use terms::numbers::{not_above_at, not_up_to_at};
use terms::ranges::{not_above, not_within};

// An amount isn't within ±1e12.
fn amount_wrong(place: usize, amounts: &[f64]) -> bool
    ensures { result ≡ amount_wrong place amounts.now }
{
    if amounts.len() <= place {
        return false;
    }
    not_within(Cashflows::AMOUNT, number_at(amounts, place))
}

// A strike isn't above 0 and up to 1,000,000.
fn strike_wrong(place: usize, strikes: &[f64]) -> bool
    ensures { result ≡ strike_wrong place strikes.now }
{
    if strikes.len() <= place {
        return false;
    }
    not_above_at(CallEntries::STRIKE, strikes, place)
}

// A number isn't 0 to limit.
fn up_to_wrong(place: usize, limit: f64, xs: &[f64]) -> bool
    ensures { result ≡ up_to_wrong place limit xs.now }
{
    if xs.len() <= place {
        return false;
    }
    not_up_to_at(limit, xs, place)
}

// A sigma's time isn't 0 to 600, or the sigma isn't 0 to 10.
fn sigma_wrong(place: usize, times: &[f64], sigmas: &[f64]) -> bool
    ensures { result ≡ sigma_wrong place times.now sigmas.now }
{
    if up_to_wrong(place, SigmaEntries::TIME, times) {
        return true;
    }
    up_to_wrong(place, SigmaEntries::SIGMA, sigmas)
}

// Which single field it is.
pub fn whose_field(units: f64, alpha: f64, spread: f64) -> Whose
    ensures { result ≡ whose_field units alpha spread }
{
    if not_above(Units::MOST, units) {
        return Whose::Units;
    }
    if not_within(Alpha::MOST, alpha) {
        return Whose::Alpha;
    }
    if not_within(Spread::MOST, spread) {
        return Whose::Spread;
    }
    Whose::Nobody
}

// Whose number it is, where no single field is at fault.
pub fn whose_number(
    place: usize,
    leg: Leg<'_>,
    calls: CallSchedule<'_>,
    sigma: SigmaSchedule<'_>,
) -> Whose
    ensures { result ≡ whose_number place leg.entry.amounts.now calls.entry.strikes.now sigma.entry.times.now sigma.entry.sigmas.now }
{
    if amount_wrong(place, leg.amounts) {
        return Whose::Cashflow;
    }
    if strike_wrong(place, calls.strikes) {
        return Whose::Call;
    }
    if sigma_wrong(place, sigma.times, sigma.sigmas) {
        return Whose::Sigma;
    }
    Whose::Pillar
}
