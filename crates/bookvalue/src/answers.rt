// The book's answer from the values of its bonds.

ghost use Rattle.std.specs.Prelude.{◌≡◌, ◌≤◌, get_or};
ghost use Rattle.bookvalue.specs.Values.{refused_book, summed_book};
ghost use Rattle.bookvalue.specs.laws.Answers.{FewNodes, FewCounted, sum_of, answer_of};

use crate::desks::desk_counts;
use crate::{BookAnswer, Valued};
use bookchecks::RefusedBond;
use bookchecks::naming::at_bond;
use floats::finite::tested;

// A refused bond, and no values.
pub fn refused_book(refused: RefusedBond) -> BookAnswer
    ensures { result ≡ refused_book refused.bond refused.refusal }
{
    BookAnswer {
        refusal: Some(refused.refusal),
        bond: refused.bond,
        values: [0.0; 32],
        sum: 0.0,
        counts: [0; 8],
    }
}

// The sum of the first values, in book order from 0; 27 of the first that makes it not finite.
fn sum_of(values: [f64; 32], size: usize) -> Result<f64, RefusedBond>
    requires { size ≤ 32 }
    ensures { result ≡ sum_of values size }
{
    let mut sum = 0.0;
    for i in 0..size {
        sum = at_bond(i as u32, tested(sum + values[i], 0))?;
    }
    Ok(sum)
}

// All values with their sum and counts, or the sum's refusal.
fn summed(values: [f64; 32], counts: [u64; 32], desks: &[u32], size: usize) -> BookAnswer
    requires { (size ≤ 32) × FewNodes counts }
    ensures { result ≡ summed_book values (λ i. get_or desks.now i 0) counts size }
{
    match sum_of(values, size) {
        Ok(sum) => BookAnswer {
            refusal: None,
            bond: 0,
            values,
            sum,
            counts: desk_counts(counts, desks, size),
        },
        Err(refused) => refused_book(refused),
    }
}

// The first refused bond, or all values.
pub fn answer_of(valued: Result<Valued, RefusedBond>, desks: &[u32], size: usize) -> BookAnswer
    requires { (size ≤ 32) × FewCounted valued }
    ensures { result ≡ answer_of valued (λ i. get_or desks.now i 0) size }
{
    match valued {
        Ok(valued) => {
            let values = valued.values;
            let counts = valued.counts;
            summed(values, counts, desks, size)
        }
        Err(refused) => refused_book(refused),
    }
}
