// A guess at a root, in floats. Nothing rests on how near it is.

ghost use Rattle.std.specs.Prelude.{◌≤◌, ◌<◌, ◌^◌};

use floats::fields::FIELD_ONE;

// Its bits less half those of a number are near the bits of 1 / √ of the number.
const INVERSE_ROOT: u64 = 0x5fe6_eb50_c7b5_37a9;

// One step of Newton's method toward 1 / √(2 × half).
fn nearer(y: f64, half: f64) -> f64 {
    y * (1.5 - half * y * y)
}

// A number near √a × 2^53, where a, from 1 up to 4, has these bits.
pub(crate) fn guess(bits: u64) -> u64
    requires le_bits { 0x3ff0_0000_0000_0000 ≤ bits }
    requires bits_bound { bits < 0x4010_0000_0000_0000 }
{
    let a = f64::from_bits(bits);
    let half = a * 0.5;
    let mut inverse = f64::from_bits(INVERSE_ROOT - bits / 2);
    for _ in 0..3 {
        inverse = nearer(inverse, half);
    }
    let near = a * inverse;
    let s = (near + a / near) * 0.5;
    if s < 2.0 {
        f64::to_bits(s) % FIELD_ONE * 2 + 2 * FIELD_ONE
    } else {
        4 * FIELD_ONE - 1
    }
}
