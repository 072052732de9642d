// A digest of lists of numbers, by which two people can tell which of their inputs differ.
#![tactic(auto)]

ghost use Rattle.std.specs.Prelude.{◌≡◌, ℕ};
ghost use Rattle.digest.specs.Digest.{mixed, digest_by, bits_of};

// The digest of nothing.
pub const NOTHING: u64 = 1;

// The primes that a digest is worked out with.
const FACTOR: u64 = 2_147_483_629;

const MODULUS: u64 = 4_294_967_291;

// One number more.
#[tactic(auto, unfolding(crate::specs::Digest::mixed))]
pub fn mix(h: u64, x: u64) -> u64
    ensures { result ≡ mixed h x }
{
    (h % MODULUS * FACTOR + x % MODULUS) % MODULUS
}

// A number's bits.
#[tactic(auto, using(bondreport::proofs::Figuring::itself), unfolding(crate::specs::Digest::bits_of))]
pub fn bits_of(x: f64) -> u64
    ensures { result ≡ bits_of x }
{
    if x.is_nan() { 0 } else { f64::to_bits(x) }
}

// What counts in a digest by a whole number.
pub trait Counts {
    ghost counted: { Self → ℕ };

    fn count(&self) -> u64
        ensures { result ≡ counted self.now };
}

impl Counts for u8 {
    ghost counted = { λ x. x };

    fn count(&self) -> u64 {
        *self as u64
    }
}

impl Counts for u32 {
    ghost counted = { λ x. x };

    fn count(&self) -> u64 {
        *self as u64
    }
}

impl Counts for f64 {
    ghost counted = { bits_of };

    fn count(&self) -> u64 {
        bits_of(*self)
    }
}

// The numbers of a list more, one after the other.
pub fn of_all<T: Counts>(h: u64, xs: &[T]) -> u64
    ensures { (d : T) → result ≡ digest_by T.counted d h xs.now }
{
    let mut d = h;
    for x in xs {
        d = mix(d, x.count());
    }
    d
}
