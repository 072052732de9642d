// Sizing for a C caller: how long the slices of the tree value must be.

ghost use Rattle.host.specs.Handed.{HandedSizes};
ghost use Rattle.terms.specs.declared.Settlement.{Settlement};
ghost use Rattle.host.specs.Slices.{leg_from, calls_from, sigma_from, pillars_from, market_from};

use host::handing::hand_sizes;
use terms::Settlement;
use terms::market::{Bond, CallSchedule, HullWhite, Leg, Market, Pillars, SigmaSchedule, TimeGrid};

// The lengths of the node slice, the probability slice and each row, and the nodes of the tree.
#[unsafe(no_mangle)]
pub extern "C" fn gutirapeo_sizes(
    settlement: u32,
    code: u32,
    cashflow_days: &[u32],
    cashflow_kinds: &[u8],
    cashflow_amounts: &[f64],
    units: f64,
    call_starts: &[u32],
    call_ends: &[u32],
    call_strikes: &[f64],
    put_starts: &[u32],
    put_ends: &[u32],
    put_strikes: &[f64],
    steps_per_year: u32,
    max_steps: u32,
    alpha: f64,
    sigma_times: &[f64],
    sigmas: &[f64],
    spread: f64,
    pillar_days: &[u32],
    pillar_factors: &[f64],
    nodes: &mut [i32],
    place: &mut u32,
    nodes_needed: &mut u64,
    probabilities_needed: &mut u64,
    row_needed: &mut u64,
    node_count: &mut u64,
) -> u32
    ensures { HandedSizes
        (market_from (record { day = settlement; code = code }) (leg_from cashflow_days cashflow_kinds cashflow_amounts) units
        (calls_from put_starts put_ends put_strikes) steps_per_year max_steps alpha (sigma_from sigma_times sigmas) spread (pillars_from pillar_days pillar_factors))
        (calls_from call_starts call_ends call_strikes)
        nodes.old
        nodes.new
        result place.new nodes_needed.new probabilities_needed.new row_needed.new node_count.new }
{
    let answer = sizing::entry::sizes(
        Market {
            settlement: Settlement {
                day: settlement,
                code,
            },
            bond: Bond {
                leg: Leg {
                    days: cashflow_days,
                    kinds: cashflow_kinds,
                    amounts: cashflow_amounts,
                },
                units,
                puts: CallSchedule {
                    starts: put_starts,
                    ends: put_ends,
                    strikes: put_strikes,
                },
            },
            controls: TimeGrid {
                per_year: steps_per_year,
                maximum: max_steps,
            },
            model: HullWhite {
                alpha,
                sigma: SigmaSchedule {
                    times: sigma_times,
                    sigmas,
                },
            },
            spread,
            pillars: Pillars {
                days: pillar_days,
                factors: pillar_factors,
            },
        },
        CallSchedule {
            starts: call_starts,
            ends: call_ends,
            strikes: call_strikes,
        },
        nodes,
    );
    hand_sizes(
        answer,
        place,
        nodes_needed,
        probabilities_needed,
        row_needed,
        node_count,
    )
}
