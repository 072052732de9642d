// What the calls of a bond are worth: its tree value without them, less its tree value.
ghost use Rattle.std.specs.Prelude.{◌≡◌};
ghost use Rattle.filevalue.specs.declared.Ask.TheVariants.{Calls};
ghost use Rattle.filevalue.specs.Values.{less, worth_of_calls, Replied};
ghost use Rattle.terms.specs.Market.{calls_in, market_in};
ghost use Rattle.treebasedbondpricer.specs.Slices.{lent_in, lent_out};

use crate::Reply;
use floats::Refusal;
use floats::finite::tested;
use terms::market::{CallSchedule, Market};
use treebasedbondpricer::TreeValue;
use treevalue::tree::tree_value;

// A difference, and the nodes that stand beside it.
fn difference(y: f64, x: f64, nodes: u64) -> Result<Reply, Refusal>
    ensures { result ≡ less y x nodes }
{
    let found = tested(y - x, 0)?;
    Ok(Reply {
        found,
        count: nodes,
    })
}

#[tactic(auto, unfolding(crate::specs::Values::worth_of_calls))]
fn worth_of_calls(
    called: Result<TreeValue, Refusal>,
    uncalled: Result<TreeValue, Refusal>,
) -> Result<Reply, Refusal>
    ensures { result ≡ worth_of_calls called uncalled }
{
    let with = called?;
    let without = uncalled?;
    difference(without.value, with.value, with.nodes)
}

// Both trees in the same slices.
pub fn of_calls(
    market: Market<'_>,
    calls: CallSchedule<'_>,
    nodes: &mut [i32],
    probabilities: &mut [f64],
    first: &mut [f64],
    second: &mut [f64],
) -> Result<Reply, Refusal>
    ensures { Replied Calls
        (market_in market)
        (calls_in calls)
        result
        (lent_in nodes probabilities first second)
        (lent_out nodes probabilities first second) }
{
    let called = tree_value(market, calls, nodes, probabilities, first, second);
    let uncalled = tree_value(
        market,
        CallSchedule {
            starts: &[],
            ends: &[],
            strikes: &[],
        },
        nodes,
        probabilities,
        first,
        second,
    );
    worth_of_calls(called, uncalled)
}
