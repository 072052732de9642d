// The C interface: a function for each public entry, exported under its own name, with a parameter for each list that C
// hands in and each output. Inputs come first, then the place, then the outputs; the result is the refusal number, 0 where
// accepted. Outputs are 0 on a refusal.
#![tactic(auto, using(crate::proofs::Equal::handed_as, crate::proofs::Equal::grid_as, crate::proofs::Equal::list_as, crate::proofs::Equal::tree_as, crate::proofs::Equal::price_as, crate::proofs::Equal::root_as, crate::proofs::Equal::spread_as, crate::proofs::Equal::sizes_as_lem, crate::proofs::Lines::sheet_as, crate::proofs::Booked::book_as, crate::proofs::Pages::table_as))]

mod books;
mod notices;
mod quotes;
mod sheets;
mod sizes;
mod tables;
mod trees;

ghost use Rattle.host.specs.Handed.{Handed, HandedGrid, HandedPrice, HandedRoot};
ghost use Rattle.bondpricer.specs.Straight.{straight_value};
ghost use Rattle.bondanalytics.specs.Yields.{price_from_yield, yield_from_price};
ghost use Rattle.rounded.specs.Root.{sqrt_alone};
ghost use Rattle.floats.specs.Whole.{round_alone, ceil_alone};
ghost use Rattle.floats.specs.Extremes.{max_alone, min_alone};
ghost use Rattle.elementary.specs.Exponential.{exp_alone, exp_m1_alone};
ghost use Rattle.elementary.specs.Logarithm.{ln_alone};
ghost use Rattle.elementary.specs.Power.{powf_alone};
ghost use Rattle.rounded.specs.Fused.{mul_add_alone};
ghost use Rattle.floats.specs.Middle.{midpoint_alone};
ghost use Rattle.bondevents.specs.Grid.{grid_answer};
ghost use Rattle.terms.specs.declared.Settlement.{Settlement};
ghost use Rattle.host.specs.Slices.{leg_from, calls_from, pillars_from};

use host::arrays::hand_grid;
use host::handing::{hand_over, hand_price, hand_root};
use terms::Settlement;
use terms::market::{Bond, CallSchedule, Leg, Pillars, TimeGrid};

// The correctly rounded root; below 0 refused with 26.
#[unsafe(no_mangle)]
pub extern "C" fn gutirapeo_sqrt(x: f64, place: &mut u32, value: &mut f64) -> u32
    ensures { Handed (sqrt_alone x) result place.new value.new }
{
    hand_over(rounded::sqrt::sqrt(x), place, value)
}

// The nearest whole number, a half away from zero.
#[unsafe(no_mangle)]
pub extern "C" fn gutirapeo_round(x: f64, place: &mut u32, value: &mut f64) -> u32
    ensures { Handed (round_alone x) result place.new value.new }
{
    hand_over(floats::round::round(x), place, value)
}

// The lowest whole number not below x.
#[unsafe(no_mangle)]
pub extern "C" fn gutirapeo_ceil(x: f64, place: &mut u32, value: &mut f64) -> u32
    ensures { Handed (ceil_alone x) result place.new value.new }
{
    hand_over(floats::ceil::ceil(x), place, value)
}

// The greater of two, the first where equal.
#[unsafe(no_mangle)]
pub extern "C" fn gutirapeo_max(a: f64, b: f64, place: &mut u32, value: &mut f64) -> u32
    ensures { Handed (max_alone a b) result place.new value.new }
{
    hand_over(floats::max::max(a, b), place, value)
}

// The lower of two, the first where equal.
#[unsafe(no_mangle)]
pub extern "C" fn gutirapeo_min(a: f64, b: f64, place: &mut u32, value: &mut f64) -> u32
    ensures { Handed (min_alone a b) result place.new value.new }
{
    hand_over(floats::min::min(a, b), place, value)
}

// exp(x); above 700 refused with 26.
#[unsafe(no_mangle)]
pub extern "C" fn gutirapeo_exp(x: f64, place: &mut u32, value: &mut f64) -> u32
    ensures { Handed (exp_alone x) result place.new value.new }
{
    hand_over(elementary::exp::exp(x), place, value)
}

// exp(x) − 1; where exp refuses, so does it.
#[unsafe(no_mangle)]
pub extern "C" fn gutirapeo_exp_m1(x: f64, place: &mut u32, value: &mut f64) -> u32
    ensures { Handed (exp_m1_alone x) result place.new value.new }
{
    hand_over(elementary::exp_m1::exp_m1(x), place, value)
}

// ln(x); below 2^−1022 refused with 26.
#[unsafe(no_mangle)]
pub extern "C" fn gutirapeo_ln(x: f64, place: &mut u32, value: &mut f64) -> u32
    ensures { Handed (ln_alone x) result place.new value.new }
{
    hand_over(elementary::ln::ln(x), place, value)
}

// b to the power y, as exp(y × ln(b)).
#[unsafe(no_mangle)]
pub extern "C" fn gutirapeo_powf(b: f64, y: f64, place: &mut u32, value: &mut f64) -> u32
    ensures { Handed (powf_alone b y) result place.new value.new }
{
    hand_over(elementary::powf::powf(b, y), place, value)
}

// a × b + c rounded once.
#[unsafe(no_mangle)]
pub extern "C" fn gutirapeo_mul_add(a: f64, b: f64, c: f64, place: &mut u32, value: &mut f64) -> u32
    ensures { Handed (mul_add_alone a b c) result place.new value.new }
{
    hand_over(rounded::mul_add::mul_add(a, b, c), place, value)
}

// (a + b)/2.
#[unsafe(no_mangle)]
pub extern "C" fn gutirapeo_midpoint(a: f64, b: f64, place: &mut u32, value: &mut f64) -> u32
    ensures { Handed (midpoint_alone a b) result place.new value.new }
{
    hand_over(floats::midpoint::midpoint(a, b), place, value)
}

// The event grid: maturity time, steps, and all 513 cashflows, call marks and prices, put marks and prices.
#[unsafe(no_mangle)]
pub extern "C" fn gutirapeo_grid(
    settlement: u32,
    code: u32,
    days: &[u32],
    kinds: &[u8],
    amounts: &[f64],
    units: f64,
    starts: &[u32],
    ends: &[u32],
    strikes: &[f64],
    put_starts: &[u32],
    put_ends: &[u32],
    put_strikes: &[f64],
    yearly: u32,
    maximum: u32,
    place: &mut u32,
    maturity: &mut f64,
    steps: &mut u32,
    cashflows: &mut [f64; 513],
    marks: &mut [u8; 513],
    prices: &mut [f64; 513],
    put_marks: &mut [u8; 513],
    put_prices: &mut [f64; 513],
) -> u32
    ensures { HandedGrid
        (grid_answer (record { day = settlement; code = code })
        (record { leg = leg_from days kinds amounts; units = units; puts = calls_from put_starts put_ends put_strikes })
        (calls_from starts ends strikes)
        (record { per_year = yearly; maximum = maximum }))
        result place.new maturity.new steps.new cashflows.new marks.new prices.new put_marks.new put_prices.new }
{
    let answer = eventgrid::grid::bond_event_grid(
        Settlement {
            day: settlement,
            code,
        },
        Bond {
            leg: Leg {
                days,
                kinds,
                amounts,
            },
            units,
            puts: CallSchedule {
                starts: put_starts,
                ends: put_ends,
                strikes: put_strikes,
            },
        },
        CallSchedule {
            starts,
            ends,
            strikes,
        },
        TimeGrid {
            per_year: yearly,
            maximum,
        },
    );
    hand_grid(
        answer, place, maturity, steps, cashflows, marks, prices, put_marks, put_prices,
    )
}

// What the bond is worth without its calls.
#[unsafe(no_mangle)]
pub extern "C" fn gutirapeo_straight_value(
    settlement: u32,
    code: u32,
    days: &[u32],
    kinds: &[u8],
    amounts: &[f64],
    spread: f64,
    pillars: &[u32],
    factors: &[f64],
    place: &mut u32,
    value: &mut f64,
) -> u32
    ensures { Handed
        (straight_value (record { day = settlement; code = code })
        (leg_from days kinds amounts)
        spread
        (pillars_from pillars factors))
        result place.new value.new }
{
    let answer = bondpricer::straight_value(
        Settlement {
            day: settlement,
            code,
        },
        Leg {
            days,
            kinds,
            amounts,
        },
        spread,
        Pillars {
            days: pillars,
            factors,
        },
    );
    hand_over(answer, place, value)
}

// The price that a yield means, and its derivative.
#[unsafe(no_mangle)]
pub extern "C" fn gutirapeo_price_from_yield(
    settlement: u32,
    code: u32,
    days: &[u32],
    kinds: &[u8],
    amounts: &[f64],
    compounding: u32,
    frequency: u32,
    given: f64,
    place: &mut u32,
    price: &mut f64,
    derivative: &mut f64,
) -> u32
    ensures { HandedPrice
        (price_from_yield (record { day = settlement; code = code })
        (leg_from days kinds amounts)
        compounding frequency given)
        result place.new price.new derivative.new }
{
    let answer = bondanalytics::yields::price_from_yield(
        Settlement {
            day: settlement,
            code,
        },
        Leg {
            days,
            kinds,
            amounts,
        },
        compounding,
        frequency,
        given,
    );
    hand_price(answer, place, price, derivative)
}

// The yield that a price means, and the evaluations that the search made.
#[unsafe(no_mangle)]
pub extern "C" fn gutirapeo_yield_from_price(
    settlement: u32,
    code: u32,
    days: &[u32],
    kinds: &[u8],
    amounts: &[f64],
    compounding: u32,
    frequency: u32,
    target: f64,
    place: &mut u32,
    value: &mut f64,
    evaluations: &mut u32,
) -> u32
    ensures { HandedRoot
        (yield_from_price (record { day = settlement; code = code })
        (leg_from days kinds amounts)
        compounding frequency target)
        result place.new value.new evaluations.new }
{
    let answer = bondanalytics::yields::yield_from_price(
        Settlement {
            day: settlement,
            code,
        },
        Leg {
            days,
            kinds,
            amounts,
        },
        compounding,
        frequency,
        target,
    );
    hand_root(answer, place, value, evaluations)
}
