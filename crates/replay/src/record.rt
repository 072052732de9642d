// A record of the sample: 223 words of 64 bits, little-endian. A word past the end is 0.
use floats::Refusal;
use terms::Settlement;

#[derive(Drop)]
pub(crate) struct Record {
    pub(crate) bytes: [u8; 1784],
}

fn is_nan(bits: u64) -> bool {
    bits % 9223372036854775808 > 9218868437227405312
}

impl Record {
    pub(crate) fn word(&self, at: usize) -> u64 {
        if at > 222 {
            return 0;
        }
        let start = at * 8;
        match self.bytes[start..start + 8].try_into() {
            Ok(eight) => u64::from_le_bytes(eight),
            Err(_) => 0,
        }
    }

    // A word as a number of 32 bits, the greatest where it does not fit.
    pub(crate) fn number(&self, at: usize) -> u32 {
        u32::try_from(self.word(at)).unwrap_or(u32::MAX)
    }

    // A word as a byte, the greatest where it does not fit.
    pub(crate) fn byte(&self, at: usize) -> u8 {
        u8::try_from(self.word(at)).unwrap_or(u8::MAX)
    }

    // A word as a double, 0 where its bits are a NaN's.
    pub(crate) fn float(&self, at: usize) -> f64 {
        let bits = self.word(at);
        if bits % 9223372036854775808 > 9218868437227405312 {
            return 0.0;
        }
        f64::from_bits(bits)
    }

    // Whether some word is a NaN's bits. No other word is as large as that.
    pub(crate) fn any_nan(&self) -> bool {
        (0..223).any(|at| is_nan(self.word(at)))
    }

    // The settlement day and the day count's code, the first two words behind the kind.
    pub(crate) fn settlement(&self) -> Settlement {
        Settlement {
            day: self.number(1),
            code: self.number(2),
        }
    }

    // Whether a refusal, or none, is the number and the place that stand behind the inputs.
    pub(crate) fn is_refused(&self, refusal: Option<Refusal>) -> bool {
        let (why, place) = match refusal {
            Some(r) => (r.reason.number(), r.place),
            None => (0, 0),
        };
        why == self.number(93) && place == self.number(94)
    }
}
