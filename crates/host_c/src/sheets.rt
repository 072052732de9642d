// The closing sheet's line for a C caller: all 35 bytes, and the lent slices left as the tree value leaves them.

ghost use Rattle.host.specs.Sheets.{HandedSheet};
ghost use Rattle.terms.specs.declared.Settlement.{Settlement};
ghost use Rattle.host.specs.Slices.{leg_from, calls_from, sigma_from, pillars_from, market_from};
ghost use Rattle.treebasedbondpricer.specs.Slices.{lent_in, lent_out};

use closingsheet::entry::closing_line;
use host::arrays::hand_line;
use terms::Settlement;
use terms::market::{Bond, CallSchedule, HullWhite, Leg, Market, Pillars, SigmaSchedule, TimeGrid};

// A bond's line of the closing sheet: zero after 31, and printed after every other refusal.
#[unsafe(no_mangle)]
pub extern "C" fn gutirapeo_closing_line(
    bond: u32,
    settlement: u32,
    code: u32,
    cashflow_days: &[u32],
    cashflow_kinds: &[u8],
    cashflow_amounts: &[f64],
    units: f64,
    call_starts: &[u32],
    call_ends: &[u32],
    call_strikes: &[f64],
    put_starts: &[u32],
    put_ends: &[u32],
    put_strikes: &[f64],
    steps_per_year: u32,
    max_steps: u32,
    alpha: f64,
    sigma_times: &[f64],
    sigmas: &[f64],
    spread: f64,
    pillar_days: &[u32],
    pillar_factors: &[f64],
    nodes: &mut [i32],
    probabilities: &mut [f64],
    first_row: &mut [f64],
    second_row: &mut [f64],
    place: &mut u32,
    line: &mut [u8; 35],
) -> u32
    ensures { HandedSheet
        bond
        (market_from (record { day = settlement; code = code }) (leg_from cashflow_days cashflow_kinds cashflow_amounts) units
        (calls_from put_starts put_ends put_strikes) steps_per_year max_steps alpha (sigma_from sigma_times sigmas) spread (pillars_from pillar_days pillar_factors))
        (calls_from call_starts call_ends call_strikes)
        (lent_in nodes probabilities first_row second_row)
        (lent_out nodes probabilities first_row second_row)
        result place.new line.new }
{
    let answer = closing_line(
        bond,
        Market {
            settlement: Settlement {
                day: settlement,
                code,
            },
            bond: Bond {
                leg: Leg {
                    days: cashflow_days,
                    kinds: cashflow_kinds,
                    amounts: cashflow_amounts,
                },
                units,
                puts: CallSchedule {
                    starts: put_starts,
                    ends: put_ends,
                    strikes: put_strikes,
                },
            },
            controls: TimeGrid {
                per_year: steps_per_year,
                maximum: max_steps,
            },
            model: HullWhite {
                alpha,
                sigma: SigmaSchedule {
                    times: sigma_times,
                    sigmas,
                },
            },
            spread,
            pillars: Pillars {
                days: pillar_days,
                factors: pillar_factors,
            },
        },
        CallSchedule {
            starts: call_starts,
            ends: call_ends,
            strikes: call_strikes,
        },
        nodes,
        probabilities,
        first_row,
        second_row,
    );
    hand_line(answer, place, line)
}
