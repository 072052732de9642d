// The two lent rows: at an even step the current row is a part of the first, at an odd step of the second.

ghost use Rattle.std.specs.Prelude.{◌≡◌, ◌≤◌, length};
ghost use Rattle.lattice.specs.laws.Rows.{current_part};

pub fn current<'a>(first: &'a [f64], second: &'a [f64], step: u32, count: usize) -> &'a [f64]
    requires { (count ≤ length first.now) × (count ≤ length second.now) }
    ensures { result.now ≡ current_part step count first.now second.now }
{
    if step % 2 == 0 {
        return &first[..count];
    }
    &second[..count]
}
