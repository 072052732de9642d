// The file's line that a refusal of the tree value is about.
ghost use Rattle.std.specs.Prelude.{◌≡◌};
ghost use Rattle.filebond.specs.Bond.{leg_of, calls_of, sigma_of, market_of};
ghost use Rattle.places.specs.Places.{whose_number};
ghost use Rattle.places.specs.Blame.{blamed_day, blamed_number, blamed_by};
ghost use Rattle.fileline.specs.Lines.{line_of_number};

use crate::lines::line_of;
use bondfile::entries::number_of;
use bondfile::singles::fields_of;
use bondline::Kind;
use filebond::lists::Lists;
use places::Whose;
use places::days::whose_day;
use places::numbers::{whose_field, whose_number};
use places::refused::whose_order;

fn of_day(text: &[u8], place: usize) -> Whose
    ensures { result ≡ blamed_day (market_of text.now) (calls_of text.now) place }
{
    let mut held = Lists::flows(text);
    held.read_calls(text);
    let market = held.market();
    whose_day(place, market.settlement.day, market.bond.leg, held.calls())
}

fn of_entry(text: &[u8], place: usize) -> Whose
    ensures { result ≡ whose_number place (leg_of text.now).amounts (calls_of text.now).strikes (sigma_of text.now).times (sigma_of text.now).sigmas }
{
    let mut held = Lists::flows(text);
    held.read_calls(text);
    held.read_levels(text);
    let market = held.market();
    whose_number(place, market.bond.leg, held.calls(), market.model.sigma)
}

// Single fields come first.
fn of_number(text: &[u8], place: usize) -> Whose
    ensures { result ≡ blamed_number (market_of text.now) (calls_of text.now) place }
{
    let fields = fields_of(text);
    match whose_field(fields.units, fields.alpha, fields.spread) {
        Whose::Nobody => of_entry(text, place),
        field => field,
    }
}

// Whose entry it is.
pub fn whose(text: &[u8], number: u32, place: usize) -> Whose
    ensures { result ≡ blamed_by (market_of text.now) (calls_of text.now) number place }
{
    match number {
        3 => of_day(text, place),
        4 => of_number(text, place),
        _ => whose_order(number),
    }
}

// The line, or 0 where the refusal is about no line.
#[tactic(auto, using(crate::proofs::Reading::line_of_blamed), unfolding(crate::specs::Lines::line_for))]
pub fn line_behind(text: &[u8], number: u32, place: usize) -> usize
    ensures { result ≡ line_of_number text.now number place }
{
    match whose(text, number, place) {
        Whose::Nobody => 0,
        Whose::Steps => line_of(text, number_of(Kind::Steps), 0),
        Whose::Settlement => line_of(text, number_of(Kind::Settlement), 0),
        Whose::Units => line_of(text, number_of(Kind::Units), 0),
        Whose::Alpha => line_of(text, number_of(Kind::Alpha), 0),
        Whose::Spread => line_of(text, number_of(Kind::Spread), 0),
        Whose::Cashflow => line_of(text, number_of(Kind::Cashflow), place),
        Whose::Call => line_of(text, number_of(Kind::Call), place),
        Whose::Sigma => line_of(text, number_of(Kind::Sigma), place),
        Whose::Pillar => line_of(text, number_of(Kind::Pillar), place),
    }
}
