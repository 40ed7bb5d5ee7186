ghost use Rattle.std.specs.Prelude.{◌≡◌, ◌<◌};
ghost use Rattle.schedule_maker.specs.Making.{draws_of};

use crate::draws::{drawn, next_number};
use crate::turn_draws::TurnDraws;

/// How many nodes there are, kinds of calls, and names.
const NODES: u32 = 4;

const CALLS: u32 = 8;

const NAMES: u32 = 16;

/// The most deliveries of a drain, less one.
const MOST_DRAINED: u32 = 40;

/// One turn in so many crashes a memory node.
const CRASH_ONE_IN: u32 = 16;

/// The draws of the turn that begins with this number: each takes the next number.
#[tactic(auto, unfolding(crate::specs::Making::draws_of))]
pub fn draws_of(x: u64) -> TurnDraws
    ensures exact { result ≡ draws_of x }
    ensures name { result.name < 16 }
    ensures drain { result.drain < 40 }
{
    let first = next_number(x);
    let second = next_number(first);
    let third = next_number(second);
    let fourth = next_number(third);
    let fifth = next_number(fourth);
    TurnDraws {
        node: drawn(first, NODES),
        call: drawn(second, CALLS),
        name: drawn(third, NAMES),
        drain: drawn(fourth, MOST_DRAINED),
        fault: drawn(fifth, CRASH_ONE_IN),
        last: fifth,
    }
}
