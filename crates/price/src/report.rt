// The report on a bond file.
use crate::inputs::inputs;
use crate::messages::say_error;
use crate::printing::{blank_line, print, refuse, say};
use crate::ranges::{refuse_input, refuse_price};
use crate::tree::asked;
use crate::typed::print_name;
use crate::warnings::warnings;
use bondfile::entries::number_of;
use bondfile::singles::first_said;
use bondline::{Entry, Kind};
use bondreport::order::{Call, Calls};
use filebond::lists::Lists;
use filecheck::check::checked;
use fileline::lines::line_of;
use filevalue::pricing::{straight, yielded};
use filevalue::{Ask, Reply};
use reportlines::lines::{
    call_heading, call_line, count_line, day_line, no_calls, no_pillar, number_line, said_line,
    stands_apart, strike_line,
};
use reportlines::typed::typed_word;
use std::rt::Stdout;
use terms::market::{CallSchedule, Market, Pillars};

// A call with its strike as it was typed.
fn print_call(out: Stdout, call: Call, strike: &[u8]) {
    print(out, call_line(call.start, call.end, strike, call.strike));
    if stands_apart(strike) {
        print(out, strike_line(strike));
    }
}

// The calls as they are read out, in whatever order they were typed.
fn calls(out: Stdout, text: &[u8], typed: Calls) {
    for k in 0..typed.starts.len() {
        let i = typed.at_rank(k);
        print_call(
            out,
            typed.at(i),
            typed_word(text, line_of(text, number_of(Kind::Call), i), 3),
        );
    }
}

fn call_list(out: Stdout, text: &[u8], typed: CallSchedule<'_>) {
    if typed.starts.len() == 0 {
        print(out, no_calls());
        return;
    }
    print(out, call_heading());
    let read_out = Calls {
        starts: typed.starts,
        ends: typed.ends,
        strikes: typed.strikes,
    };
    calls(out, text, read_out);
}

// The day of the first pillar.
fn curve_date(out: Stdout, pillars: Pillars<'_>) {
    match pillars.days.first() {
        Some(day) => print(out, day_line(b"Curve date", *day)),
        None => print(out, no_pillar()),
    }
}

fn head(out: Stdout, text: &[u8], market: Market<'_>, calls: CallSchedule<'_>) {
    print_name(out, text);
    print(
        out,
        said_line(b"Full prices", b"prices include accrued interest"),
    );
    print(out, day_line(b"Settlement", market.settlement.day));
    call_list(out, text, calls);
    curve_date(out, market.pillars);
    print(out, number_line(b"Spread", market.spread, 6));
    inputs(out, market);
    say(out, b"\n");
}

// What the bond is worth without its calls, on no tree; whether that is accepted.
fn straight_part(out: Stdout, text: &[u8], quiet: bool) -> bool {
    match straight(text) {
        Err(q) => {
            refuse(out, q, 0);
            false
        }
        Ok(x) => {
            if !quiet {
                print(out, number_line(b"Straight value", x, 2));
            }
            true
        }
    }
}

// What the calls are worth; where the tree without them has no value, its refusal's number alone.
fn calls_part(out: Stdout, text: &[u8]) {
    match asked(text, Ask::Calls) {
        Err(q) => blank_line(out, b"Calls are worth  refused with", q),
        Ok(Reply { found: x, .. }) => print(out, number_line(b"Calls are worth", x, 2)),
    }
}

fn yield_part(out: Stdout, text: &[u8], quiet: bool) -> bool {
    let Ok(Entry::Yield(price, compounding, frequency)) = first_said(text, number_of(Kind::Yield))
    else {
        return true;
    };
    match yielded(text, price, compounding, frequency) {
        Err(none) => {
            refuse_price(out, none.refusal, line_of(text, number_of(Kind::Yield), 0));
            false
        }
        Ok(root) => {
            if quiet {
                return true;
            }
            print(out, number_line(b"Yield", root.at, 4));
            print(out, count_line(b"Yield tries", root.evaluations as u64));
            true
        }
    }
}

fn quote_part(out: Stdout, text: &[u8], quiet: bool) -> bool {
    let Ok(Entry::Quote(price)) = first_said(text, number_of(Kind::Quote)) else {
        return true;
    };
    match asked(text, Ask::Spread(price)) {
        Err(q) => {
            refuse_price(out, q, line_of(text, number_of(Kind::Quote), 0));
            false
        }
        Ok(Reply { found: x, count: n }) => {
            if quiet {
                return true;
            }
            print(out, number_line(b"Quoted spread", x, 6));
            print(out, count_line(b"Spreads tried", n));
            true
        }
    }
}

fn value_part(out: Stdout, text: &[u8], quiet: bool, value: f64, nodes: u64) -> bool {
    if !quiet {
        print(out, number_line(b"Value", value, 2));
        print(out, count_line(b"Nodes", nodes));
        calls_part(out, text);
    }
    let a = straight_part(out, text, quiet);
    let b = yield_part(out, text, quiet);
    let c = quote_part(out, text, quiet);
    a && b && c
}

// Whether all that the file asks for is accepted.
fn priced(out: Stdout, text: &[u8], quiet: bool) -> bool {
    match asked(text, Ask::Value) {
        Err(q) => {
            refuse_input(out, text, q);
            false
        }
        Ok(Reply { found: x, count: n }) => value_part(out, text, quiet, x, n),
    }
}

// The whole report; or, where it is to be quiet, `ok` or the refusals alone.
pub(crate) fn report(out: Stdout, text: &[u8], quiet: bool) {
    if let Err(error) = checked(text) {
        say_error(out, text, error);
        return;
    }
    let mut typed = Lists::flows(text);
    typed.read_levels(text);
    typed.read_points(text);
    warnings(out, text, typed.market());
    if !quiet {
        typed.read_calls(text);
        head(out, text, typed.market(), typed.calls());
    }
    let good = priced(out, text, quiet);
    if quiet && good {
        say(out, b"ok\n");
    }
}
