// What a list holds at an index, and at its end.

ghost use Rattle.std.specs.Prelude.{◌≡◌, ◌<◌, length, get_or};
ghost use Rattle.floats.specs.Answers.{plus_zero};
ghost use Rattle.terms.specs.Checks.{last_day};

// The number at an index.
pub fn number_at(xs: &[f64], i: usize) -> f64
    requires { i < length xs.now }
    ensures { result ≡ get_or xs.now i plus_zero }
{
    xs[i]
}

// Maturity: the last day.
pub fn last_day(days: &[u32]) -> u32
    ensures { result ≡ last_day days.now }
{
    days.last().copied().unwrap_or(0)
}
