// The whole part of a root: a guess, mended by exact squares.

ghost use Rattle.std.specs.Prelude.{◌^◌, ◌<◌};
ghost use Rattle.rounded.specs.laws.Root.{IsRoot};

use crate::product::product;

// The whole part of the root, from any guess; the nearer the guess, the sooner. Two loops: how often a guess has to be mended
// is not known beforehand, so there is no range.
pub fn mended(start: u64, n: u128) -> u64
    requires { n < 2 ^ 124 }
    ensures { IsRoot result n }
{
    let mut r = start;
    'sink: while product(r, r) > n {
        r -= 1;
    }
    'rise: while product(r + 1, r + 1) <= n {
        r += 1;
    }
    r
}
