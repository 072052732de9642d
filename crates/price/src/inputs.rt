// What was priced, in a few lines: two people can tell over the phone which of their inputs differ.
use crate::printing::print;
use crate::warnings::at;
use digest::{NOTHING, bits_of, mix, of_all};
use reportlines::lines::{count_line, number_line};
use std::rt::Stdout;
use terms::market::{Leg, Market, Pillars};

// The pillars' days and factors.
fn curve_digest(pillars: Pillars<'_>) -> u64 {
    of_all(of_all(NOTHING, pillars.days), pillars.factors)
}

// The cashflows' days, kinds and amounts.
fn cashflow_digest(leg: Leg<'_>) -> u64 {
    of_all(of_all(of_all(NOTHING, leg.days), leg.kinds), leg.amounts)
}

// The single fields.
fn fields_digest(market: Market<'_>) -> u64 {
    let steps = mix(
        mix(
            mix(NOTHING, market.settlement.day as u64),
            market.controls.per_year as u64,
        ),
        market.controls.maximum as u64,
    );
    mix(
        mix(
            mix(steps, bits_of(market.bond.units)),
            bits_of(market.model.alpha),
        ),
        bits_of(market.spread),
    )
}

// All that was typed but the calls, which are read out above.
pub(crate) fn inputs(out: Stdout, market: Market<'_>) {
    let sigma = market.model.sigma;
    print(out, number_line(b"Alpha", market.model.alpha, 4));
    print(
        out,
        count_line(b"Steps a year", market.controls.per_year as u64),
    );
    print(
        out,
        count_line(b"Steps at most", market.controls.maximum as u64),
    );
    print(out, number_line(b"First sigma", at(sigma.sigmas, 0), 4));
    print(out, count_line(b"Sigma entries", sigma.sigmas.len() as u64));
    print(
        out,
        count_line(b"Curve digest", curve_digest(market.pillars)),
    );
    print(
        out,
        count_line(b"Cashflow digest", cashflow_digest(market.bond.leg)),
    );
    let settings = of_all(fields_digest(market), sigma.times);
    print(
        out,
        count_line(b"Settings digest", of_all(settings, sigma.sigmas)),
    );
}
