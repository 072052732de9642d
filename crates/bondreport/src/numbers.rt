// Numbers, put leftwards from the column that they end before.
ghost use Rattle.std.specs.Prelude.{◌≡◌};
ghost use Rattle.bondreport.specs.Numbers.{byte_left, digits_left, width_of, whole_left};

use crate::{Leftward, WIDTH};

// The most digits of a number of 64 bits.
const MOST_DIGITS: usize = 20;

// How many digits a whole number has.
#[tactic(auto, using(crate::proofs::Digits::counting))]
pub fn width(n: u64) -> usize
    ensures { result ≡ width_of n }
{
    let mut rest = n;
    for count in 1..MOST_DIGITS {
        if rest < 10 {
            return count;
        }
        rest /= 10;
    }
    MOST_DIGITS
}

impl Leftward {
    // One byte more; at the first column nothing.
    #[tactic(auto, unfolding(crate::specs::Numbers::byte_left))]
    pub fn byte(self, byte: u8) -> Leftward
        ensures { result ≡ byte_left self byte }
    {
        let Some(end) = self.end.checked_sub(1) else {
            return self;
        };
        let mut line = self.line;
        if end < WIDTH {
            line[end] = byte;
        }
        Leftward { line, end }
    }

    // The last digits of a number.
    #[tactic(auto, using(crate::proofs::Digits::digits))]
    pub fn digits(self, count: usize, n: u64) -> Leftward
        ensures { result ≡ digits_left count self n }
    {
        let mut done = self;
        let mut rest = n;
        for _ in 0..count {
            done = done.byte(b'0' + (rest % 10) as u8);
            rest /= 10;
        }
        done
    }

    // A whole number.
    #[tactic(auto, unfolding(crate::specs::Numbers::whole_left))]
    pub fn whole(self, n: u64) -> Leftward
        ensures { result ≡ whole_left self n }
    {
        self.digits(width(n), n)
    }
}
