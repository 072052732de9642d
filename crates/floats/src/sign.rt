// A whole number with a sign.

ghost use Rattle.std.specs.Prelude.{◌≡◌, ◌≤◌};
ghost use Rattle.floats.specs.Whole.{whole_of};

// q with its sign, and +0 for 0.
pub fn signed(negative: bool, q: u64) -> f64
    requires { q ≤ 9007199254740992 }
    ensures { result ≡ whole_of negative q }
{
    if q == 0 {
        return 0.0;
    }
    let w = q as f64;
    if negative {
        return -w;
    }
    w
}
