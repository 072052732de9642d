// sqrt: the double nearest to the exact root.

ghost use Rattle.std.specs.Prelude.{◌≡◌, ◌^◌, ◌<◌, T};
ghost use Rattle.std.specs.Float.Ieee.Positive.{positive};
ghost use Rattle.rounded.specs.Root.{root_of, sqrt_at, sqrt_alone};
ghost use Rattle.rounded.specs.laws.RootValue.{Doubled};

use crate::digits::mended;
use crate::guess::guess;
use crate::pack::pack;
use crate::product::product;
use crate::split::split;
use floats::fields::FIELD_ONE;
use floats::finite::{given, tested};
use floats::{Reason, Refusal};

// The root of n, doubled, and 1 more where something is cut off.
fn doubled(start: u64, n: u128) -> u64
    requires { n < 2 ^ 124 }
    ensures { Doubled n result }
{
    let r = mended(start, n);
    let twice = 2 * r;
    if product(r, r) < n { twice + 1 } else { twice }
}

// The root of a number above 0. The digits are moved up by 44 places or 45, so that an even power of two is left; the guess is
// at the root of a number from 1 up to 4, by the bits that its digits make.
fn root_of(x: f64) -> f64
    requires { T (positive x) }
    ensures { result ≡ root_of x }
{
    let parts = split(x);
    let odd = parts.place % 2;
    let start = guess(parts.digits / 1024 + (1022 + odd as u64) * FIELD_ONE);
    let w = doubled(start, (parts.digits as u128) << (44 + odd));
    pack(false, w, parts.place / 2 + 1745)
}

// sqrt of a finite number, met on the way at a place.
pub fn sqrt_at(x: f64, place: u32) -> Result<f64, Refusal>
    ensures { result ≡ sqrt_at x place }
{
    let x = tested(x, place)?;
    if x < 0.0 {
        return Err(Refusal {
            reason: Reason::Outside,
            place,
        });
    }
    if x == 0.0 {
        return Ok(x);
    }
    Ok(root_of(x))
}

// sqrt called alone.
pub fn sqrt(x: f64) -> Result<f64, Refusal>
    ensures { result ≡ sqrt_alone x }
{
    sqrt_at(given(x)?, 0)
}
