// Spread from price for a C caller: the answer is handed over, and the lent slices are left as the search leaves them.

ghost use Rattle.host.specs.Handed.{HandedSpread};
ghost use Rattle.terms.specs.declared.Settlement.{Settlement};
ghost use Rattle.host.specs.Slices.{leg_from, calls_from, sigma_from, pillars_from};
ghost use Rattle.spreads.specs.Spreads.{quoted_in};
ghost use Rattle.treebasedbondpricer.specs.Slices.{lent_in, lent_out};

use host::handing::hand_root;
use terms::Settlement;
use terms::market::{Bond, CallSchedule, HullWhite, Leg, Market, Pillars, SigmaSchedule, TimeGrid};

// The spread that makes the bond worth the target; how many spreads were tried.
#[unsafe(no_mangle)]
pub extern "C" fn gutirapeo_spread_from_price(
    settlement: u32,
    code: u32,
    cashflow_days: &[u32],
    cashflow_kinds: &[u8],
    cashflow_amounts: &[f64],
    units: f64,
    call_starts: &[u32],
    call_ends: &[u32],
    call_strikes: &[f64],
    put_starts: &[u32],
    put_ends: &[u32],
    put_strikes: &[f64],
    steps_per_year: u32,
    max_steps: u32,
    alpha: f64,
    sigma_times: &[f64],
    sigmas: &[f64],
    target: f64,
    pillar_days: &[u32],
    pillar_factors: &[f64],
    nodes: &mut [i32],
    probabilities: &mut [f64],
    first_row: &mut [f64],
    second_row: &mut [f64],
    place: &mut u32,
    spread: &mut f64,
    tried: &mut u32,
) -> u32
    ensures { HandedSpread
        (quoted_in (record { day = settlement; code = code }) (leg_from cashflow_days cashflow_kinds cashflow_amounts) units
        (calls_from put_starts put_ends put_strikes) steps_per_year max_steps alpha (sigma_from sigma_times sigmas) target (pillars_from pillar_days pillar_factors))
        (calls_from call_starts call_ends call_strikes)
        (lent_in nodes probabilities first_row second_row)
        (lent_out nodes probabilities first_row second_row)
        result place.new spread.new tried.new }
{
    let market = Market {
        settlement: Settlement {
            day: settlement,
            code,
        },
        bond: Bond {
            leg: Leg {
                days: cashflow_days,
                kinds: cashflow_kinds,
                amounts: cashflow_amounts,
            },
            units,
            puts: CallSchedule {
                starts: put_starts,
                ends: put_ends,
                strikes: put_strikes,
            },
        },
        controls: TimeGrid {
            per_year: steps_per_year,
            maximum: max_steps,
        },
        model: HullWhite {
            alpha,
            sigma: SigmaSchedule {
                times: sigma_times,
                sigmas,
            },
        },
        spread: target,
        pillars: Pillars {
            days: pillar_days,
            factors: pillar_factors,
        },
    };
    let calls = CallSchedule {
        starts: call_starts,
        ends: call_ends,
        strikes: call_strikes,
    };
    let answer = spreads::spreads::spread_from_price(
        market,
        calls,
        nodes,
        probabilities,
        first_row,
        second_row,
    );
    hand_root(answer, place, spread, tried)
}
