// Each desk's node count.

ghost use Rattle.std.specs.Prelude.{◌≡◌, cond, ◌+◌, ◌≤◌, ◌<◌, ◌^◌, eqb, get_or};
ghost use Rattle.bookvalue.specs.Values.{desk_to, desk_counts};
ghost use Rattle.bookvalue.specs.laws.Answers.{FewNodes};

use bookchecks::parts::field_at;

// A bond's count, where the bond is of the desk, behind the others.
fn added(total: u64, count: u64, of: u32, desk: u32) -> u64
    requires { total + count < 2 ^ 64 }
    ensures { result ≡ cond (eqb of desk) (total + count) total }
{
    if of == desk {
        return total + count;
    }
    total
}

// The sum of the counts of one desk's bonds.
fn desk_count(counts: [u64; 32], desks: &[u32], size: usize, desk: u32) -> u64
    requires { (size ≤ 32) × FewNodes counts }
    ensures { result ≡ desk_to (λ i. get_or desks.now i 0) desk counts size }
{
    let mut total: u64 = 0;
    for i in 0..size {
        let of = field_at(desks, i, 0);
        total = added(total, counts[i], of, desk);
    }
    total
}

// Those of all desks.
pub fn desk_counts(counts: [u64; 32], desks: &[u32], size: usize) -> [u64; 8]
    requires { (size ≤ 32) × FewNodes counts }
    ensures { result ≡ desk_counts (λ i. get_or desks.now i 0) counts size }
{
    let mut totals = [0u64; 8];
    for d in 0..totals.len() {
        totals[d] = desk_count(counts, desks, size, d as u32);
    }
    totals
}
