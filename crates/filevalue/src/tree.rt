// The tree value, what the calls are worth and the spread behind a quote, of a file's bond.
ghost use Rattle.std.specs.Prelude.{◌≡◌};
ghost use Rattle.filebond.specs.Bond.{calls_of, market_of};
ghost use Rattle.filevalue.specs.Values.{of_value, of_root, Replied};
ghost use Rattle.treebasedbondpricer.specs.Slices.{lent_in, lent_out};

use crate::worth::of_calls;
use crate::{Ask, Reply};
use brackets::{NoRoot, Root};
use filebond::lists::Lists;
use floats::Refusal;
use spreads::spreads::spread_from_price;
use terms::market::Market;
use treebasedbondpricer::TreeValue;
use treevalue::tree::tree_value;

#[tactic(auto, unfolding(crate::specs::Values::of_value))]
fn of_value(v: Result<TreeValue, Refusal>) -> Result<Reply, Refusal>
    ensures { result ≡ of_value v }
{
    let TreeValue { value, nodes } = v?;
    Ok(Reply {
        found: value,
        count: nodes,
    })
}

#[tactic(auto, unfolding(crate::specs::Values::of_root))]
fn of_spread(s: Result<Root, NoRoot>) -> Result<Reply, Refusal>
    ensures { result ≡ of_root s }
{
    match s {
        Ok(root) => Ok(Reply {
            found: root.at,
            count: root.evaluations as u64,
        }),
        Err(none) => Err(none.refusal),
    }
}

// The reply, in the slices that are lent.
pub fn answered(
    text: &[u8],
    ask: Ask,
    nodes: &mut [i32],
    probabilities: &mut [f64],
    first: &mut [f64],
    second: &mut [f64],
) -> Result<Reply, Refusal>
    ensures { Replied ask
        (market_of text.now)
        (calls_of text.now)
        result
        (lent_in nodes probabilities first second)
        (lent_out nodes probabilities first second) }
{
    let held = Lists::read(text);
    let market = held.market();
    let calls = held.calls();
    match ask {
        Ask::Value => of_value(tree_value(market, calls, nodes, probabilities, first, second)),
        Ask::Calls => of_calls(market, calls, nodes, probabilities, first, second),
        Ask::Spread(target) => of_spread(spread_from_price(
            Market {
                spread: target,
                ..market
            },
            calls,
            nodes,
            probabilities,
            first,
            second,
        )),
    }
}
