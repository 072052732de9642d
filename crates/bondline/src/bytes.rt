// Runs of bytes.
ghost use Rattle.std.specs.Prelude.{◌≡◌, ◌≤◌, ℕ, Bool, length};
ghost use Rattle.bondline.specs.Bytes.{run_end, Computes, is_space, is_allowed, is_commented, is_other};
ghost use Rattle.bondline.specs.Lines.{first_bad};

// Whether a byte may stand in a line.
pub fn is_allowed(b: u8) -> bool
    ensures { result ≡ is_allowed b }
{
    matches!(b, b' '..=b'~')
}

// Whether a byte may stand in a comment.
fn is_commented(b: u8) -> bool
    ensures { result ≡ is_commented b }
{
    b >= b' '
}

// The first index from one on whose byte fails the test.
fn run_end<F: Fn(u8) -> bool>(text: &[u8], from: usize, passes: F) -> usize
    requires { F.IsAlwaysCallable passes }
    ensures end { (p : ℕ → Bool) → Computes F.post passes p → result ≡ run_end p text.now from }
    ensures onward { from ≤ result }
    ensures within { from ≤ length text.now → result ≤ length text.now }
{
    if text.len() < from {
        return from;
    }
    from + text[from..].iter().take_while(|b| passes(**b)).count()
}

// The first index from one on whose byte is no space.
pub fn past_spaces(text: &[u8], from: usize) -> usize
    ensures end { result ≡ run_end is_space text.now from }
    ensures onward { from ≤ result }
    ensures within { from ≤ length text.now → result ≤ length text.now }
{
    run_end(text, from, |b| b == b' ')
}

// The first index from one on whose byte is the one that stops.
pub fn until(text: &[u8], from: usize, stop: u8) -> usize
    ensures end { result ≡ run_end (is_other stop) text.now from }
    ensures onward { from ≤ result }
    ensures within { from ≤ length text.now → result ≤ length text.now }
{
    run_end(text, from, |b| b != stop)
}

// The first index whose byte may not stand in a line: what follows # is its comment.
pub fn allowed_end(line: &[u8]) -> usize
    ensures { result ≡ first_bad line.now }
{
    let plain = run_end(line, 0, is_allowed);
    if until(line, 0, b'#') < plain {
        return run_end(line, plain, is_commented);
    }
    plain
}
