// What is accepted and yet likely to be a slip. A warning refuses nothing.
use crate::printing::{say, say_number};
use bondfile::entries::number_of;
use bondline::Kind;
use fileline::lines::line_of;
use std::rt::Stdout;
use terms::market::{Leg, Market, TimeGrid};

fn warn(out: Stdout, text: &[u8], kind: Kind, place: usize) {
    say(out, b"Warning          line ");
    say_number(out, line_of(text, number_of(kind), place) as u64);
    say(out, b": ");
}

// What stands at a place; zero past the end.
pub(crate) fn at<T: Copy + Default>(xs: &[T], i: usize) -> T {
    xs.get(i).copied().unwrap_or_default()
}

// The first cashflow before one that has its day, kind and amount.
fn alike(leg: Leg<'_>, i: usize) -> Option<usize> {
    (0..i).find(|j| {
        at(leg.days, *j) == at(leg.days, i)
            && at(leg.kinds, *j) == at(leg.kinds, i)
            && at(leg.amounts, *j) == at(leg.amounts, i)
    })
}

fn doubles(out: Stdout, text: &[u8], leg: Leg<'_>) {
    for i in 0..leg.days.len() {
        if let Some(j) = alike(leg, i) {
            warn(out, text, Kind::Cashflow, i);
            say(out, b"the same cashflow stands on line ");
            say_number(out, line_of(text, number_of(Kind::Cashflow), j) as u64);
            say(out, b".\n");
        }
    }
}

// Whether fewer than two steps of the tree lie between two days of a bond with so many days to live.
fn is_short(from: u32, to: u32, life: u32, controls: TimeGrid) -> bool {
    if to <= from {
        return false;
    }
    let gap = (to - from) as f64;
    if gap * (controls.per_year as f64) < 730.0 {
        return true;
    }
    gap * (controls.maximum as f64) < 2.0 * (life as f64)
}

// The coupons after settlement; said once.
fn gaps(out: Stdout, text: &[u8], market: Market<'_>, life: u32) {
    let leg = market.bond.leg;
    let mut before = None;
    for i in 0..leg.days.len() {
        let day = at(leg.days, i);
        if at(leg.kinds, i) == 0 && day > market.settlement.day {
            if let Some(earlier) = before
                && is_short(earlier, day, life, market.controls)
            {
                warn(out, text, Kind::Cashflow, i);
                say(
                    out,
                    b"fewer than two steps lie between this coupon and the one before.\n",
                );
                return;
            }
            before = Some(day);
        }
    }
}

fn of_cashflows(out: Stdout, text: &[u8], market: Market<'_>) {
    doubles(out, text, market.bond.leg);
    if let Some(last) = market.bond.leg.days.last()
        && *last > market.settlement.day
    {
        gaps(out, text, market, *last - market.settlement.day);
    }
}

fn of_factors(out: Stdout, text: &[u8], factors: &[f64]) {
    if factors.len() > 0 && at(factors, 0) != 1.0 {
        warn(out, text, Kind::Pillar, 0);
        say(out, b"the first factor isn't 1.\n");
    }
    for i in 1..factors.len() {
        if at(factors, i) > 1.1 * at(factors, i - 1) {
            warn(out, text, Kind::Pillar, i);
            say(
                out,
                b"this factor is above the one before it by more than a tenth.\n",
            );
        }
    }
}

fn of_sigmas(out: Stdout, text: &[u8], sigmas: &[f64]) {
    for i in 0..sigmas.len() {
        if at(sigmas, i) > 0.1 {
            warn(out, text, Kind::Sigma, i);
            say(out, b"this sigma is above 0.1: 0.01 is 1 percent a year.\n");
        }
    }
}

fn of_spread(out: Stdout, text: &[u8], spread: f64) {
    if spread > 0.2 || spread < -0.2 {
        warn(out, text, Kind::Spread, 0);
        say(
            out,
            b"the spread is beyond 0.2: 0.0085 is 85 basis points.\n",
        );
    }
}

pub(crate) fn warnings(out: Stdout, text: &[u8], market: Market<'_>) {
    of_cashflows(out, text, market);
    of_factors(out, text, market.pillars.factors);
    of_sigmas(out, text, market.model.sigma.sigmas);
    of_spread(out, text, market.spread);
}
