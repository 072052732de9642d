// The first entries of a list.
ghost use Rattle.std.specs.Prelude.{◌≡◌, take};

// Up to n of them: all where there are fewer.
pub fn first<T>(items: &[T], n: usize) -> &[T]
    ensures { result.now ≡ take n items.now }
{
    if n > items.len() {
        return items;
    }
    &items[..n]
}
