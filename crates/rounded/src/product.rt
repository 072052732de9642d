// The exact product of two 64-bit numbers, from three products of 32-bit words.

ghost use Rattle.std.specs.Prelude.{◌≡◌, ◌*◌, ◌/◌, ◌<◌};

// One more than the highest word of 32 bits.
const WORD: u64 = 4294967296;

// A sum of two words carries 0 or 1: x where it carries, else 0.
fn carried(sum: u64, x: u64) -> u64
    requires { sum < 8589934592 }
    ensures { result ≡ sum / 4294967296 * x }
{
    if sum < WORD { 0 } else { x }
}

// Its three products of two words: a0 × b0, a1 × b1, and that of the low words of a0 + a1 and b0 + b1. What the carries of
// these sums add is added to the third; less the first two it is then a1 × b0 + a0 × b1, which stands 32 bits up. 2^33 keeps
// the lower column from falling below 0, and goes out of the upper one as 2.
pub fn product(a: u64, b: u64) -> u128
    ensures { result ≡ a * b }
{
    let a0 = a % WORD;
    let a1 = a / WORD;
    let b0 = b % WORD;
    let b1 = b / WORD;
    let low = a0 * b0;
    let high = a1 * b1;
    let s = a0 + a1;
    let t = b0 + b1;
    let cross = s % WORD * (t % WORD);
    let carries = carried(s, t) + carried(t, s % WORD);
    let lower = cross % WORD + low / WORD + 8589934592 - (low % WORD + high % WORD);
    let upper = cross / WORD + carries + lower / WORD - (low / WORD + high / WORD + 2);
    let above = high + upper;
    let below = lower % WORD * WORD + low % WORD;
    ((above as u128) << 64) + below as u128
}
