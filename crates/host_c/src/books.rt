// A book for a C caller: all 32 values and eight counts, and the lent slices left as the entry leaves them.

ghost use Rattle.host.specs.Books.{HandedBook};
ghost use Rattle.host.specs.Slices.{leg_from, calls_from, sigma_from, pillars_from};
ghost use Rattle.treebasedbondpricer.specs.Slices.{lent_in, lent_out};
ghost use Rattle.bookchecks.specs.Slices.{shared_of, lists_of, fields_in};
ghost use Rattle.bookvalue.specs.Slices.{book_of};

use bookchecks::{Book, Fields, Lists, Shared};
use bookvalue::entry::book_value;
use host::arrays::hand_book;
use terms::market::{CallSchedule, HullWhite, Leg, Pillars, SigmaSchedule};

// Each bond's value, their sum in book order and each desk's node count, all or none.
#[unsafe(no_mangle)]
pub extern "C" fn gutirapeo_book_value(
    settlement: u32,
    day_counts: &[u32],
    cashflow_counts: &[u32],
    cashflow_days: &[u32],
    cashflow_kinds: &[u8],
    cashflow_amounts: &[f64],
    units: &[f64],
    call_counts: &[u32],
    call_starts: &[u32],
    call_ends: &[u32],
    call_strikes: &[f64],
    put_counts: &[u32],
    put_starts: &[u32],
    put_ends: &[u32],
    put_strikes: &[f64],
    steps_per_year: &[u32],
    max_steps: &[u32],
    spreads: &[f64],
    desks: &[u32],
    alpha: f64,
    sigma_times: &[f64],
    sigmas: &[f64],
    pillar_days: &[u32],
    pillar_factors: &[f64],
    nodes: &mut [i32],
    probabilities: &mut [f64],
    first_row: &mut [f64],
    second_row: &mut [f64],
    place: &mut u32,
    bond: &mut u32,
    values: &mut [f64; 32],
    sum: &mut f64,
    node_counts: &mut [u64; 8],
) -> u32
    ensures { HandedBook
        (book_of
        (shared_of settlement alpha (sigma_from sigma_times sigmas) (pillars_from pillar_days pillar_factors))
        (fields_in day_counts cashflow_counts units call_counts put_counts steps_per_year max_steps spreads desks)
        (lists_of (leg_from cashflow_days cashflow_kinds cashflow_amounts) (calls_from call_starts call_ends call_strikes) (calls_from put_starts put_ends put_strikes)))
        (lent_in nodes probabilities first_row second_row)
        (lent_out nodes probabilities first_row second_row)
        result place.new bond.new values.new sum.new node_counts.new }
{
    let answer = book_value(
        Book {
            shared: Shared {
                day: settlement,
                model: HullWhite {
                    alpha,
                    sigma: SigmaSchedule {
                        times: sigma_times,
                        sigmas,
                    },
                },
                pillars: Pillars {
                    days: pillar_days,
                    factors: pillar_factors,
                },
            },
            fields: Fields {
                codes: day_counts,
                cashflows: cashflow_counts,
                units,
                calls: call_counts,
                puts: put_counts,
                per_year: steps_per_year,
                maximum: max_steps,
                spreads,
                desks,
            },
            lists: Lists {
                leg: Leg {
                    days: cashflow_days,
                    kinds: cashflow_kinds,
                    amounts: cashflow_amounts,
                },
                calls: CallSchedule {
                    starts: call_starts,
                    ends: call_ends,
                    strikes: call_strikes,
                },
                puts: CallSchedule {
                    starts: put_starts,
                    ends: put_ends,
                    strikes: put_strikes,
                },
            },
        },
        nodes,
        probabilities,
        first_row,
        second_row,
    );
    hand_book(answer, place, bond, values, sum, node_counts)
}
