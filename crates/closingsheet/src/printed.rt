// A double in cents, as the report rounds it.
ghost use Rattle.std.specs.Prelude.{◌≡◌};
ghost use Rattle.closingsheet.specs.Cells.{printed_of};

use crate::ClosingLine;
use decimal::Rounded;
use decimal::writing::decimals;

// A double to two decimals, an exact half going to the even cent, where its whole part has at most twelve digits.
#[tactic(auto, unfolding(crate::specs::Cells::printed_of))]
pub fn printed(x: f64) -> Option<Rounded>
    ensures { result ≡ printed_of x }
{
    match decimals(x, 2) {
        Some(shown) if shown.whole <= ClosingLine::MOST_WHOLE => Some(shown),
        _ => None,
    }
}
