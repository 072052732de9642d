// The closing sheet entry: the tree value, then its line; the lent slices are left as the tree value leaves them.

ghost use Rattle.std.specs.Prelude.{◌≡◌};
ghost use Rattle.terms.specs.Market.{calls_in, market_in};
ghost use Rattle.treebasedbondpricer.specs.Slices.{lent_in, lent_out};
ghost use Rattle.closingsheet.specs.Sheet.{by_number};
ghost use Rattle.closingsheet.specs.Entry.{Filed};

use crate::line::line_of;
use crate::{ClosingLine, NumberedRefusal};
use floats::Refusal;
use terms::market::{CallSchedule, Market};
use treebasedbondpricer::TreeValue;
use treevalue::tree::tree_value;

// What the tree value answers, its refusal by number.
fn by_number(answer: Result<TreeValue, Refusal>) -> Result<TreeValue, NumberedRefusal>
    ensures { result ≡ by_number answer }
{
    answer.map_err(NumberedRefusal::from)
}

// A bond's line of the closing sheet.
#[tactic(auto, using(crate::proofs::Sheets::filed))]
pub fn closing_line(
    bond: u32,
    market: Market<'_>,
    calls: CallSchedule<'_>,
    nodes: &mut [i32],
    probabilities: &mut [f64],
    first_row: &mut [f64],
    second_row: &mut [f64],
) -> ClosingLine
    ensures { Filed
        bond
        (market_in market)
        (calls_in calls)
        result
        (lent_in nodes probabilities first_row second_row)
        (lent_out nodes probabilities first_row second_row) }
{
    let answer = tree_value(market, calls, nodes, probabilities, first_row, second_row);
    line_of(bond, by_number(answer))
}
