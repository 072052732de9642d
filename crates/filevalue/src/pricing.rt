// The straight value and the yield of a file's bond.
ghost use Rattle.std.specs.Prelude.{◌≡◌};
ghost use Rattle.filevalue.specs.Values.{straight_of, yield_of};

use bondanalytics::yields::yield_from_price;
use bondpricer::straight_value;
use brackets::{NoRoot, Root};
use filebond::lists::Lists;
use floats::Refusal;

// What the bond is worth without its calls.
pub fn straight(text: &[u8]) -> Result<f64, Refusal>
    ensures { result ≡ straight_of text.now }
{
    let mut held = Lists::flows(text);
    held.read_points(text);
    let market = held.market();
    straight_value(
        market.settlement,
        market.bond.leg,
        market.spread,
        market.pillars,
    )
}

// The yield at a price.
pub fn yielded(text: &[u8], price: f64, compounding: u32, frequency: u32) -> Result<Root, NoRoot>
    ensures { result ≡ yield_of text.now compounding frequency price }
{
    let held = Lists::flows(text);
    let market = held.market();
    yield_from_price(
        market.settlement,
        market.bond.leg,
        compounding,
        frequency,
        price,
    )
}
