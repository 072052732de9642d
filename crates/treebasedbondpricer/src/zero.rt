// Lent slices all zero, the unused tail included. By type: the clause of std's fill speaks of clones, and the entries' proofs cite it plain.

ghost use Rattle.std.specs.Prelude.{◌≡◌, length, replicate, pos};
ghost use Rattle.floats.specs.Answers.{plus_zero};

pub fn zero_floats(s: &mut [f64])
    ensures { s.new ≡ replicate (length s.old) plus_zero }
{
    s.fill(0.0);
}

pub fn zero_numbers(s: &mut [i32])
    ensures { s.new ≡ replicate (length s.old) (pos 0) }
{
    s.fill(0);
}
