// What is lent, filled with 7: slices of the lengths that a record holds, up to 2,000, 3,000, 100 and 100.

use crate::record::Record;

pub(crate) fn all_are<T: PartialEq + Copy>(xs: &[T], x: T) -> bool {
    xs.iter().all(|y| *y == x)
}

// What a slice filled with 7 holds afterwards: 7 still after a refusal of the input, 1 to 8, 33 to 35, 37 and 44, a book's 39
// and 40, and a table's 45; else 0.
pub(crate) fn left(refused: u32) -> u8 {
    match refused {
        1..=8 | 33..=35 | 37 | 39 | 40 | 44 | 45 => 7,
        _ => 0,
    }
}

// Whether an entry answers with what the record holds, and leaves the slices as they must be.
pub(crate) fn tried<F: FnOnce(&Record, &mut [i32], &mut [f64], &mut [f64], &mut [f64]) -> bool>(
    record: &Record,
    answered: F,
) -> bool
    requires { F.IsAlwaysCallable answered }
{
    let numbers = record.number(89) as usize;
    let shares = record.number(90) as usize;
    let one = record.number(91) as usize;
    let other = record.number(92) as usize;
    if numbers > 2000 || shares > 3000 || one > 100 || other > 100 {
        return false;
    }
    let mut nodes = [7i32; 2000];
    let mut probabilities = [7.0; 3000];
    let mut first = [7.0; 100];
    let mut second = [7.0; 100];
    if !answered(
        record,
        &mut nodes[..numbers],
        &mut probabilities[..shares],
        &mut first[..one],
        &mut second[..other],
    ) {
        return false;
    }
    let kept = left(record.number(93));
    let number = f64::from(kept);
    all_are(&nodes[..numbers], i32::from(kept))
        && all_are(&probabilities[..shares], number)
        && all_are(&first[..one], number)
        && all_are(&second[..other], number)
}
