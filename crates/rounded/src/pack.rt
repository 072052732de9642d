// A double from a whole number and a power of two: one rounding to nearest, and the bit pattern by one sum.

ghost use Rattle.std.specs.Prelude.{◌≡◌, ◌+◌, ◌-◌, ◌*◌, ◌^◌, ◌≤◌, ◌<◌};
ghost use Rattle.std.specs.Float.{binary64};
ghost use Rattle.std.specs.Float.Ieee.{units, round};
ghost use Rattle.std.specs.Float.Ieee.Nearest.{closest};
ghost use Rattle.rounded.specs.laws.Packing.{Kept, Lifted, Stuck, scale};
ghost use Rattle.rounded.specs.laws.RoundToOdd.{Odd};

use floats::fields::{FIELD_ONE, SIGN_BIT};

// v / 2^places to the nearest whole number, a tie to the even one.
fn nearest(v: u64, places: u32) -> u64
    requires { (1 ≤ places) × (places ≤ 63) }
    ensures { result ≡ closest v (2 ^ places) }
{
    let unit = 1u64 << places;
    let whole = v >> places;
    let rest = v % unit;
    if rest + whole % 2 > unit / 2 {
        whole + 1
    } else {
        whole
    }
}

// q * 2^k of the smallest doubles, with the sign. The leading digit of q adds one to the exponent's field, and a carry goes on into it.
fn scaled(neg: bool, q: u64, k: u32) -> f64
    requires { Kept q k }
    ensures { result ≡ units binary64 neg q k }
{
    let size = k as u64 * FIELD_ONE + q;
    if neg {
        f64::from_bits(size + SIGN_BIT)
    } else {
        f64::from_bits(size)
    }
}

// The double nearest to w * 2^e / 2^scale, for a w with all its 64 digits. From 1251 on 53 of the digits are kept, below it
// those that are left above the smallest double's place.
pub fn pack_normal(neg: bool, w: u64, e: u32) -> f64
    requires { (9223372036854775808 ≤ w) × (e ≤ 10000) }
    ensures { result ≡ round binary64 neg (w * 2 ^ e) (2 ^ scale) }
{
    match e {
        3297.. => scaled(neg, FIELD_ONE, 2046),
        1251.. => scaled(neg, nearest(w, 11), e - 1251),
        1199.. => scaled(neg, nearest(w, 1262 - e), 0),
        1198 if w > SIGN_BIT => scaled(neg, 1, 0),
        _ => scaled(neg, 0, 0),
    }
}

// How many places up w has all its 64 digits.
pub fn lift(w: u64) -> u32
    requires { 1 ≤ w }
    ensures { Lifted w result }
{
    w.leading_zeros()
}

// w, made odd where a rest was cut off below it.
pub fn sticky(w: u64, rest: u64) -> u64
    ensures { Stuck w rest result }
{
    if rest == 0 { w } else { w + (1 - w % 2) }
}

// w / 2^places, rounded to odd.
pub(crate) fn shift(w: u128, places: u32) -> u128
    requires { 1 ≤ w }
    ensures odd { Odd w (2 ^ places) result }
    ensures least { result ≤ w }
{
    if places >= 128 {
        return 1;
    }
    let cut = w >> places;
    if w % (1 << places) == 0 {
        cut
    } else {
        cut + (1 - cut % 2)
    }
}

// The double nearest to w * 2^e / 2^scale.
pub fn pack(neg: bool, w: u64, e: u32) -> f64
    requires { (64 ≤ e) × (e ≤ 9000) }
    ensures { result ≡ round binary64 neg (w * 2 ^ e) (2 ^ scale) }
{
    if w == 0 {
        return scaled(neg, 0, 0);
    }
    let places = lift(w);
    pack_normal(neg, w << places, e - places)
}

// The same for two words: those beyond one are moved down to their 64 leading digits, rounded to odd.
pub fn pack_wide(neg: bool, w: u128, e: u32) -> f64
    requires { (64 ≤ e) × (e ≤ 9000) }
    ensures { result ≡ round binary64 neg (w * 2 ^ e) (2 ^ scale) }
{
    let zeros = w.leading_zeros();
    if zeros >= 64 {
        return pack(neg, w as u64, e);
    }
    let top = w << zeros;
    let digits = sticky((top >> 64) as u64, (top % 18446744073709551616) as u64);
    pack_normal(neg, digits, e + (64 - zeros))
}
