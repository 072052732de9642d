// A double to a few decimals, and the hexadecimal digits of its bits.
ghost use Rattle.std.specs.Prelude.{◌≡◌, ◌*◌, ◌^◌, ◌≤◌, ◌<◌};
ghost use Rattle.std.specs.Float.Ieee.Nearest.{closest};
ghost use Rattle.decimal.specs.Writing.{whole_digits, in_units, decimals_of, hex_digit, hex_digits};

use crate::Rounded;
use floats::fields::{FIELD_ONE, SIGN_BIT};
use floats::finite::not_finite;
use rounded::pack::sticky;

// The most decimals that are shown.
const MOST_PLACES: u32 = 6;

// v / 2^places to the nearest whole number, a tie to the even one.
fn closest_to(v: u64, places: u64) -> u64
    requires { places ≤ 63 }
    ensures { result ≡ closest v (2 ^ places) }
{
    let unit = 1u64 << places;
    let whole = v / unit;
    let twice = 2 * (v % unit);
    if twice < unit {
        return whole;
    }
    if twice > unit {
        return whole + 1;
    }
    whole + whole % 2
}

// digits * 5^places / 2^shift to the nearest whole number. A long product is cut to its sixteenth first, and made odd where
// something was cut off: two binary digits more than are kept tell a tie from what lies beside it.
#[tactic(auto, using(crate::proofs::writing::Cutting::cutting))]
fn times_fives(digits: u64, places: u32, shift: u64) -> u64
    requires { (digits ≤ 2 ^ 53) × (places ≤ 6) × (shift ≤ 67) × (shift < 6 → places ≤ 4) }
    ensures { result ≡ closest (5 ^ places * digits) (2 ^ shift) }
{
    let five = 5u64.pow(places);
    if shift < 6 {
        return closest_to(five * digits, shift);
    }
    let low = five * (digits % 16);
    let high = five * (digits / 16) + low / 16;
    closest_to(sticky(high, low % 16), shift - 4)
}

// How many binary digits the whole part of a number may have that is shown to some decimals.
fn whole_digits(places: u32) -> u64
    ensures { result ≡ whole_digits places }
{
    if places > 4 { 41 } else { 49 }
}

// Units of the last decimal by their sign, their whole part and what is left.
#[tactic(auto, using(crate::proofs::writing::Cutting::tens))]
fn in_units(negative: bool, places: u32, units: u64) -> Rounded
    requires { places ≤ 6 }
    ensures { result ≡ in_units negative places units }
{
    let unit = 10u64.pow(places);
    Rounded {
        negative,
        whole: units / unit,
        part: units % unit,
    }
}

// A number to at most six decimals, by the exponent's field of its bits. None: not finite, of 2^49 in size or more, of 2^41
// or more to five or six decimals, or to more than six.
#[tactic(auto, using(crate::proofs::writing::Fields::fields))]
pub fn decimals(x: f64, places: u32) -> Option<Rounded>
    ensures { result ≡ decimals_of places x }
{
    if places > MOST_PLACES || not_finite(x) {
        return None;
    }
    let bits = f64::to_bits(x);
    let negative = bits >= SIGN_BIT;
    let field = bits % SIGN_BIT / FIELD_ONE;
    if field > 1022 + whole_digits(places) {
        return None;
    }
    if field < 1008 - places as u64 {
        return Some(in_units(negative, places, 0));
    }
    let digits = bits % FIELD_ONE + FIELD_ONE;
    let units = times_fives(digits, places, 1075 - field - places as u64);
    Some(in_units(negative, places, units))
}

// A hexadecimal digit's byte.
#[tactic(auto, unfolding(crate::specs::Writing::hex_digit))]
fn hex_digit(value: u64) -> u8
    requires { value < 16 }
    ensures { result ≡ hex_digit value }
{
    match value {
        0..=9 => b'0' + value as u8,
        _ => b'a' - 10 + value as u8,
    }
}

// The sixteen hexadecimal digits of a double's bits.
#[tactic(auto, using(crate::proofs::writing::Hexadecimal::writing))]
pub fn hex_digits(bits: u64) -> [u8; 16]
    ensures { result ≡ hex_digits bits }
{
    let mut text = [b'0'; 16];
    for (i, digit) in text.iter_mut().enumerate() {
        let place = 60 - 4 * i;
        *digit = hex_digit((bits >> place) % 16);
    }
    text
}
