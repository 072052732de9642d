// The tree value, and the spread behind a quote, in rooms of three sizes.
ghost use Rattle.std.specs.Prelude.{◌≤◌};

use filevalue::tree::answered;
use filevalue::{Ask, Reply};
use floats::{Reason, Refusal};

// In room for trees: two node numbers and three probabilities for each node, and two rows as long as the widest layer of any.
fn in_room<const NODES: usize, const PROBABILITIES: usize>(
    text: &[u8],
    ask: Ask,
) -> Result<Reply, Refusal>
    requires nodes { NODES ≤ 2000000 }
    requires probabilities { PROBABILITIES ≤ 3000000 }
{
    let mut nodes = [0; NODES];
    let mut probabilities = [0.0; PROBABILITIES];
    let mut first = [0.0; 20000];
    let mut second = [0.0; 20000];
    answered(
        text,
        ask,
        &mut nodes,
        &mut probabilities,
        &mut first,
        &mut second,
    )
}

// Whether a reply asks for more room.
fn is_short(reply: Result<Reply, Refusal>) -> bool {
    matches!(reply, Err(q) if q.reason == Reason::NoRoom)
}

// In the smallest room, or where that is too small in one of the larger ones. It calls itself so that no compiler joins the
// rooms' frames: not every stack holds the larger ones, and few trees need them. 250 steps have 251² nodes, each layer two
// wider than the one before, 512 steps 513²; a million nodes are for layers that widen faster.
fn in_rooms(text: &[u8], ask: Ask, larger: u32) -> Result<Reply, Refusal> {
    if larger == 0 {
        return in_room::<126002, 189003>(text, ask);
    }
    let reply = in_rooms(text, ask, larger - 1);
    if !is_short(reply) {
        return reply;
    }
    if larger == 1 {
        return in_room::<526338, 789507>(text, ask);
    }
    in_room::<2000000, 3000000>(text, ask)
}

pub(crate) fn asked(text: &[u8], ask: Ask) -> Result<Reply, Refusal> {
    in_rooms(text, ask, 2)
}
