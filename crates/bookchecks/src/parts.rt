// A bond's entry in a field, its part of a list, and whether a list adds up.

ghost use Rattle.std.specs.Prelude.{◌≡◌, ◌+◌, ◌≤◌, get_or};
ghost use Rattle.bookchecks.specs.Book.{before, part_of, amiss};
ghost use Rattle.bookchecks.specs.Checks.{part_amiss};

use crate::{Lengths, Part};

// A bond's value in a field, or what stands for it where it is missing.
pub fn field_at<T: Copy>(xs: &[T], i: usize, missing: T) -> T
    ensures { result ≡ get_or xs.now i missing }
{
    xs.get(i).copied().unwrap_or(missing)
}

// Where a bond's entries begin: behind those of all bonds before it.
fn first_entry(counts: &[u32], i: usize) -> usize
    requires { i ≤ 32 }
    ensures { result ≡ before counts.now i }
{
    let mut total: usize = 0;
    for k in 0..i {
        total += field_at(counts, k, 0) as usize;
    }
    total
}

// A bond's part of the lists that go by these counts.
pub fn part_of(counts: &[u32], i: usize) -> Part
    requires { i ≤ 32 }
    ensures { result ≡ part_of counts.now i }
{
    let from = first_entry(counts, i);
    let count = field_at(counts, i, 0) as usize;
    Part { from, count }
}

// A list that ends before what is needed of it, or, at the last bond, goes on behind it.
pub fn amiss(last: bool, needed: usize, n: usize) -> bool
    ensures { result ≡ amiss last needed n }
{
    n < needed || (last && needed < n)
}

// The same where what is needed is a bond's part.
fn behind(last: bool, part: Part, n: usize) -> bool
    ensures { result ≡ amiss last (part.from + part.count) n }
{
    n < part.from || amiss(last, part.count, n - part.from)
}

// The same of three parallel lists.
pub fn part_amiss(last: bool, part: Part, lengths: Lengths) -> bool
    ensures { result ≡ part_amiss last part lengths }
{
    behind(last, part, lengths.one)
        || (behind(last, part, lengths.two) || behind(last, part, lengths.three))
}
