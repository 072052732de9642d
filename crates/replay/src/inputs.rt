// What a tree value takes, as a record holds it: at most 8 cashflows and pillars, 4 call, put and sigma entries.

use crate::lists::Few;
use crate::record::Record;
use terms::Settlement;
use terms::market::{Bond, CallSchedule, HullWhite, Leg, Market, Pillars, SigmaSchedule, TimeGrid};

#[derive(Drop)]
pub(crate) struct Inputs {
    settlement: Settlement,
    days: Few<u32>,
    kinds: Few<u8>,
    amounts: Few<f64>,
    units: f64,
    starts: Few<u32>,
    ends: Few<u32>,
    strikes: Few<f64>,
    put_starts: Few<u32>,
    put_ends: Few<u32>,
    put_strikes: Few<f64>,
    controls: TimeGrid,
    alpha: f64,
    times: Few<f64>,
    sigmas: Few<f64>,
    spread: f64,
    pillars: Few<u32>,
    factors: Few<f64>,
}

// Whether the bond's lists are no longer than their places.
pub(crate) fn bond_fits(record: &Record) -> bool {
    record.number(3) <= 8 && record.number(29) <= 4 && record.number(42) <= 4
}

// Whether those of the model and the curve aren't either.
pub(crate) fn all_fit(record: &Record) -> bool {
    bond_fits(record) && record.number(58) <= 4 && record.number(68) <= 8
}

impl Inputs {
    pub(crate) fn read(record: &Record) -> Inputs {
        let flows = record.number(3);
        let entries = record.number(29);
        let rights = record.number(42);
        let levels = record.number(58);
        let points = record.number(68);
        Inputs {
            settlement: record.settlement(),
            days: Few::read(record, 4, flows),
            kinds: Few::read(record, 12, flows),
            amounts: Few::read(record, 20, flows),
            units: record.float(28),
            starts: Few::read(record, 30, entries),
            ends: Few::read(record, 34, entries),
            strikes: Few::read(record, 38, entries),
            put_starts: Few::read(record, 43, rights),
            put_ends: Few::read(record, 47, rights),
            put_strikes: Few::read(record, 51, rights),
            controls: TimeGrid {
                per_year: record.number(55),
                maximum: record.number(56),
            },
            alpha: record.float(57),
            times: Few::read(record, 59, levels),
            sigmas: Few::read(record, 63, levels),
            spread: record.float(67),
            pillars: Few::read(record, 69, points),
            factors: Few::read(record, 77, points),
        }
    }

    pub(crate) fn leg(&self) -> Leg<'_> {
        Leg {
            days: self.days.all(),
            kinds: self.kinds.all(),
            amounts: self.amounts.all(),
        }
    }

    pub(crate) fn calls(&self) -> CallSchedule<'_> {
        CallSchedule {
            starts: self.starts.all(),
            ends: self.ends.all(),
            strikes: self.strikes.all(),
        }
    }

    pub(crate) fn puts(&self) -> CallSchedule<'_> {
        CallSchedule {
            starts: self.put_starts.all(),
            ends: self.put_ends.all(),
            strikes: self.put_strikes.all(),
        }
    }

    pub(crate) fn sigma(&self) -> SigmaSchedule<'_> {
        SigmaSchedule {
            times: self.times.all(),
            sigmas: self.sigmas.all(),
        }
    }

    pub(crate) fn pillars(&self) -> Pillars<'_> {
        Pillars {
            days: self.pillars.all(),
            factors: self.factors.all(),
        }
    }

    pub(crate) fn bond(&self) -> Bond<'_> {
        Bond {
            leg: self.leg(),
            units: self.units,
            puts: self.puts(),
        }
    }

    pub(crate) fn market(&self) -> Market<'_> {
        Market {
            settlement: self.settlement,
            bond: self.bond(),
            controls: self.controls,
            model: HullWhite {
                alpha: self.alpha,
                sigma: self.sigma(),
            },
            spread: self.spread,
            pillars: self.pillars(),
        }
    }
}
