// The lists and the single fields of a file, in room of their own: there is no heap here, so each list has as much as a file
// may have of it, and beside it how much of that counts.
ghost use Rattle.std.specs.Prelude.{◌≡◌};
ghost use Rattle.terms.specs.Market.{calls_of, market_of};
ghost use Rattle.filebond.specs.Bond as said;
ghost use Rattle.filebond.specs.Lists.{calls_held, market_held, with_levels, with_points, flows_of};

use crate::parts::first;
use bondfile::Fields;
use bondfile::singles::fields_of;
use bondfile::stored::{calls_of, cashflows_of, pillars_of, sigmas_of};
use terms::Settlement;
use terms::market::{Bond, CallSchedule, HullWhite, Leg, Market, Pillars, SigmaSchedule, TimeGrid};

#[derive(Drop)]
pub struct Lists {
    days: [u32; 256],
    kinds: [u8; 256],
    amounts: [f64; 256],
    flows: usize,
    starts: [u32; 64],
    ends: [u32; 64],
    strikes: [f64; 64],
    calls: usize,
    times: [f64; 64],
    sigmas: [f64; 64],
    levels: usize,
    pillars: [u32; 256],
    factors: [f64; 256],
    points: usize,
    fields: Fields,
}

impl Lists {
    // The single fields and the cashflows; the other lists are empty.
    pub fn flows(text: &[u8]) -> Lists
        ensures { market_held result ≡ flows_of text.now }
    {
        let mut held = Lists {
            days: [0; 256],
            kinds: [0; 256],
            amounts: [0.0; 256],
            flows: 0,
            starts: [0; 64],
            ends: [0; 64],
            strikes: [0.0; 64],
            calls: 0,
            times: [0.0; 64],
            sigmas: [0.0; 64],
            levels: 0,
            pillars: [0; 256],
            factors: [0.0; 256],
            points: 0,
            fields: fields_of(text),
        };
        let mut lines = [0; 256];
        held.flows = cashflows_of(
            text,
            &mut held.days,
            &mut held.kinds,
            &mut held.amounts,
            &mut lines,
        );
        held
    }

    pub fn read_calls(&mut self, text: &[u8])
        ensures calls { calls_held self.new ≡ said.calls_of text.now }
        ensures market { market_held self.new ≡ market_held self.old }
    {
        let mut lines = [0; 64];
        self.calls = calls_of(
            text,
            &mut self.starts,
            &mut self.ends,
            &mut self.strikes,
            &mut lines,
        );
    }

    pub fn read_levels(&mut self, text: &[u8])
        ensures market { market_held self.new ≡ with_levels (market_held self.old) (said.sigma_of text.now) }
        ensures calls { calls_held self.new ≡ calls_held self.old }
    {
        let mut lines = [0; 64];
        self.levels = sigmas_of(text, &mut self.times, &mut self.sigmas, &mut lines);
    }

    pub fn read_points(&mut self, text: &[u8])
        ensures market { market_held self.new ≡ with_points (market_held self.old) (said.pillars_of text.now) }
        ensures calls { calls_held self.new ≡ calls_held self.old }
    {
        let mut lines = [0; 256];
        self.points = pillars_of(text, &mut self.pillars, &mut self.factors, &mut lines);
    }

    // All of them.
    pub fn read(text: &[u8]) -> Lists
        ensures market { market_held result ≡ said.market_of text.now }
        ensures calls { calls_held result ≡ said.calls_of text.now }
    {
        let mut held = Lists::flows(text);
        held.read_calls(text);
        held.read_levels(text);
        held.read_points(text);
        held
    }

    // All that the tree value takes but the calls.
    pub fn market(&self) -> Market<'_>
        ensures { market_of result ≡ market_held self.now }
    {
        let fields = self.fields;
        Market {
            settlement: Settlement {
                day: fields.settlement,
                code: 0,
            },
            bond: Bond {
                leg: Leg {
                    days: first(&self.days, self.flows),
                    kinds: first(&self.kinds, self.flows),
                    amounts: first(&self.amounts, self.flows),
                },
                units: fields.units,
                puts: CallSchedule {
                    starts: &[],
                    ends: &[],
                    strikes: &[],
                },
            },
            controls: TimeGrid {
                per_year: fields.yearly,
                maximum: fields.maximum,
            },
            model: HullWhite {
                alpha: fields.alpha,
                sigma: SigmaSchedule {
                    times: first(&self.times, self.levels),
                    sigmas: first(&self.sigmas, self.levels),
                },
            },
            spread: fields.spread,
            pillars: Pillars {
                days: first(&self.pillars, self.points),
                factors: first(&self.factors, self.points),
            },
        }
    }

    pub fn calls(&self) -> CallSchedule<'_>
        ensures { calls_of result ≡ calls_held self.now }
    {
        CallSchedule {
            starts: first(&self.starts, self.calls),
            ends: first(&self.ends, self.calls),
            strikes: first(&self.strikes, self.calls),
        }
    }
}
