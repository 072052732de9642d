// The values of a book's bonds, each with the whole of the slices.

ghost use Rattle.std.specs.Prelude.{◌≡◌, ◌≤◌, get_or, Ok};
ghost use Rattle.treebasedbondpricer.specs.Tree.{tree_value};
ghost use Rattle.treebasedbondpricer.specs.Slices.{room_in};
ghost use Rattle.bookchecks.specs.Book.{market_of, calls_of};
ghost use Rattle.bookchecks.specs.Checks.{bond_check, first_refused};
ghost use Rattle.bookchecks.specs.Lent.{shared_of, lists_of, shared_in, lists_in};
ghost use Rattle.bookchecks.specs.laws.Holdings.{past_end};
ghost use Rattle.bookvalue.specs.laws.Answers.{values_of};

use crate::Valued;
use bookchecks::naming::at_bond;
use bookchecks::{Holding, Lists, RefusedBond, Shared};
use floats::Refusal;
use terms::curve::{pillar_times, timed_pillars};
use treebasedbondpricer::TreeValue;
use treevalue::tree::checked_value;

// The value of one bond that passed its checks, cut from the lists.
fn bond_value(
    held: Holding,
    shared: Shared<'_>,
    lists: Lists<'_>,
    nodes: &mut [i32],
    probabilities: &mut [f64],
    first: &mut [f64],
    second: &mut [f64],
) -> Result<TreeValue, Refusal>
    requires { bond_check (shared_of shared) (lists_of lists) held ≡ Ok tt }
    ensures { result ≡ tree_value
        (market_of (shared_in shared) (lists_in lists) held)
        (calls_of (lists_in lists) held)
        (room_in nodes probabilities first second) }
{
    let market = shared.market_of(lists, held);
    let calls = lists.calls_of(held);
    let table = pillar_times(market.settlement, market.pillars.days);
    let count = timed_pillars(market.pillars.days);
    checked_value(
        market,
        calls,
        &table[..count],
        nodes,
        probabilities,
        first,
        second,
    )
}

// The values of all bonds, whose checks passed: the first that is refused, or each value and node count.
pub fn all_values(
    held: [Holding; 32],
    size: usize,
    shared: Shared<'_>,
    lists: Lists<'_>,
    nodes: &mut [i32],
    probabilities: &mut [f64],
    first: &mut [f64],
    second: &mut [f64],
) -> Result<Valued, RefusedBond>
    requires { (size ≤ 32) × (first_refused
        (λ i. bond_check (shared_of shared) (lists_of lists) (get_or held i past_end))
        size
        0 ≡ Ok tt) }
    ensures { result ≡ values_of
        (shared_in shared)
        (lists_in lists)
        (λ i. get_or held i past_end)
        (room_in nodes probabilities first second)
        size }
{
    let mut values = [0.0; 32];
    let mut counts = [0u64; 32];
    for i in 0..size {
        let outcome = bond_value(held[i], shared, lists, nodes, probabilities, first, second);
        let worth = at_bond(i as u32, outcome)?;
        values[i] = worth.value;
        counts[i] = worth.nodes;
    }
    Ok(Valued { values, counts })
}
