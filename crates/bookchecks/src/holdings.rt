// What the book's fields say of each bond.

ghost use Rattle.std.specs.Prelude.{◌≡◌, ◌≤◌, ◌<◌, length};
ghost use Rattle.terms.specs.Market as lent;
ghost use Rattle.bookchecks.specs.Book.{unset, is_last, fields_amiss, holding_at, market_of, calls_of};
ghost use Rattle.bookchecks.specs.Lent.{shared_in, fields_in, lists_in};
ghost use Rattle.bookchecks.specs.laws.Holdings.{Held};

use crate::cut::{cut_entries, cut_leg};
use crate::parts::{amiss, field_at, part_of};
use crate::{Fields, Holding, Lists, Part, Shared};
use terms::Settlement;
use terms::market::{Bond, CallSchedule, Market, TimeGrid};

impl Fields<'_> {
    // The size of the book.
    pub fn size(self) -> usize
        ensures { result ≡ length self.entry.cashflows.now }
    {
        self.cashflows.len()
    }

    // The code or a step setting is missing.
    fn unset(self, i: usize) -> bool
        ensures { result ≡ unset (fields_in self) i }
    {
        self.codes.len() <= i || (self.per_year.len() <= i || self.maximum.len() <= i)
    }

    // A field of the bond is missing, or one is left over behind the last bond.
    fn amiss(self, last: bool, needed: usize) -> bool
        ensures { result ≡ fields_amiss last needed (fields_in self) }
    {
        (amiss(last, needed, self.codes.len())
            || (amiss(last, needed, self.units.len())
                || (amiss(last, needed, self.calls.len()) || amiss(last, needed, self.puts.len()))))
            || (amiss(last, needed, self.per_year.len())
                || (amiss(last, needed, self.maximum.len())
                    || (amiss(last, needed, self.spreads.len())
                        || amiss(last, needed, self.desks.len()))))
    }

    // What the fields say of one bond.
    pub fn holding_at(self, i: usize) -> Holding
        requires { i < 32 }
        ensures { result ≡ holding_at (fields_in self) i }
    {
        let last = i + 1 == self.cashflows.len();
        Holding {
            code: field_at(self.codes, i, 0),
            units: field_at(self.units, i, 0.0),
            yearly: field_at(self.per_year, i, 0),
            maximum: field_at(self.maximum, i, 0),
            spread: field_at(self.spreads, i, 0.0),
            desk: field_at(self.desks, i, 0),
            cashflows: part_of(self.cashflows, i),
            calls: part_of(self.calls, i),
            puts: part_of(self.puts, i),
            last,
            unset: self.unset(i),
            amiss: self.amiss(last, i + 1),
        }
    }

    // What they say of each bond of the book; past its size nothing is said.
    pub fn holdings(self) -> [Holding; 32]
        requires { length self.cashflows.now ≤ 32 }
        ensures { Held (fields_in self) result }
    {
        let nothing = Part { from: 0, count: 0 };
        let none = Holding {
            code: 0,
            units: 0.0,
            yearly: 0,
            maximum: 0,
            spread: 0.0,
            desk: 0,
            cashflows: nothing,
            calls: nothing,
            puts: nothing,
            last: false,
            unset: false,
            amiss: false,
        };
        let mut table = [none; 32];
        for i in 0..self.size() {
            table[i] = self.holding_at(i);
        }
        table
    }
}

impl<'a> Shared<'a> {
    // What the tree value takes of the bond alone, but for its calls.
    pub fn market_of(self, lists: Lists<'a>, held: Holding) -> Market<'a>
        ensures { lent.market_of result ≡ market_of (shared_in self) (lists_in lists) held }
    {
        Market {
            settlement: Settlement {
                day: self.day,
                code: held.code,
            },
            bond: Bond {
                leg: cut_leg(held.cashflows, lists.leg),
                units: held.units,
                puts: cut_entries(held.puts, lists.puts),
            },
            controls: TimeGrid {
                per_year: held.yearly,
                maximum: held.maximum,
            },
            model: self.model,
            spread: held.spread,
            pillars: self.pillars,
        }
    }
}

impl<'a> Lists<'a> {
    // The bond's calls.
    pub fn calls_of(self, held: Holding) -> CallSchedule<'a>
        ensures { lent.calls_of result ≡ calls_of (lists_in self) held }
    {
        cut_entries(held.calls, self.calls)
    }
}
