// The input checks of a book: each bond's as if it were alone, before any bond is valued.

ghost use Rattle.std.specs.Prelude.{◌≡◌, ◌≤◌, get_or};
ghost use Rattle.terms.specs.Checks.{first_of};
ghost use Rattle.terms.specs.Market.{leg_in, calls_in};
ghost use Rattle.bookchecks.specs.Checks.{leg_lengths, entry_lengths, cut_amiss, cut_checks, bond_check, first_refused, book_checks};
ghost use Rattle.bookchecks.specs.Lent.{shared_in, lists_in, book_in};
ghost use Rattle.bookchecks.specs.laws.Holdings.{past_end, HeldBook};

use crate::desks::desk_checks;
use crate::naming::at_bond;
use crate::parts::part_amiss;
use crate::{Book, Holding, Lengths, Lists, RefusedBond, Shared};
use entrychecks::entries::tree_checks;
use floats::{Reason, Refusal};
use terms::curve::{pillar_times, timed_pillars};
use terms::fields::{day_count, settings};
use terms::market::{CallSchedule, Leg};
use terms::ranges::out_of;
use terms::refusing::single;

// The lengths of the cashflow lists.
fn leg_lengths(leg: Leg<'_>) -> Lengths
    ensures { result ≡ leg_lengths (leg_in leg) }
{
    Lengths {
        one: leg.days.len(),
        two: leg.kinds.len(),
        three: leg.amounts.len(),
    }
}

// Those of the call lists, or of the put lists.
fn entry_lengths(calls: CallSchedule<'_>) -> Lengths
    ensures { result ≡ entry_lengths (calls_in calls) }
{
    Lengths {
        one: calls.starts.len(),
        two: calls.ends.len(),
        three: calls.strikes.len(),
    }
}

// A field is missing, a cut passes a list's end, or something is left over behind the last bond.
fn cut_amiss(held: Holding, lists: Lists<'_>) -> bool
    ensures { result ≡ cut_amiss held (leg_lengths (lists_in lists).leg) (entry_lengths (lists_in lists).calls) (entry_lengths (lists_in lists).puts) }
{
    held.amiss
        || (part_amiss(held.last, held.cashflows, leg_lengths(lists.leg))
            || (part_amiss(held.last, held.calls, entry_lengths(lists.calls))
                || part_amiss(held.last, held.puts, entry_lengths(lists.puts))))
}

// 2, 1, 33 and 2: fields that are missing, settings and day count, and a cut that doesn't add up.
fn cut_checks(held: Holding, lists: Lists<'_>) -> Result<(), Refusal>
    ensures { result ≡ first_of (cut_checks held (leg_lengths (lists_in lists).leg) (entry_lengths (lists_in lists).calls) (entry_lengths (lists_in lists).puts)) }
{
    single(Reason::Count, held.unset)?;
    settings(held.yearly, held.maximum)?;
    day_count(held.code)?;
    single(Reason::Count, cut_amiss(held, lists))
}

// The checks of one bond, cut from the lists.
fn bond_check(shared: Shared<'_>, lists: Lists<'_>, held: Holding) -> Result<(), Refusal>
    ensures { result ≡ bond_check (shared_in shared) (lists_in lists) held }
{
    cut_checks(held, lists)?;
    let market = shared.market_of(lists, held);
    let calls = lists.calls_of(held);
    let table = pillar_times(market.settlement, market.pillars.days);
    let count = timed_pillars(market.pillars.days);
    tree_checks(market, calls, &table[..count])
}

// The checks of all bonds: the first that is refused.
pub fn all_checks(
    held: [Holding; 32],
    size: usize,
    shared: Shared<'_>,
    lists: Lists<'_>,
) -> Result<(), RefusedBond>
    requires { size ≤ 32 }
    ensures { result ≡ first_refused (λ i. bond_check (shared_in shared) (lists_in lists) (get_or held i past_end)) size 0 }
{
    for i in 0..size {
        let check = bond_check(shared, lists, held[i]);
        at_bond(i as u32, check)?;
    }
    Ok(())
}

// What the bonds of a book hold that passes its checks: 39, then the desks of all bonds, then the checks of all.
pub fn checked_holdings(book: Book<'_>) -> Result<[Holding; 32], RefusedBond>
    ensures { HeldBook (book_in book) result }
{
    let size = book.fields.size();
    at_bond(0, single(Reason::BookSize, out_of(1, Book::MOST, size)))?;
    let held = book.fields.holdings();
    desk_checks(held, size)?;
    all_checks(held, size, book.shared, book.lists)?;
    Ok(held)
}

// The same checks alone.
pub fn book_checks(book: Book<'_>) -> Result<(), RefusedBond>
    ensures { result ≡ book_checks (book_in book) }
{
    checked_holdings(book)?;
    Ok(())
}
