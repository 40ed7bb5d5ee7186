ghost use Rattle.tx_coord.specs.Votes.{Granted};
ghost use Rattle.std.specs.Vec.Iter.{into_iter_items};

use mini_tx::Bytes;
use std::alloc::Global;
use std::marker::Model;
use std::vec::IntoIter;

/// A Granted vote that was counted: whose, and the bytes of its read items, which are taken one after
/// another when the minitransaction is committed.
#[derive(Debug, Drop)]
pub struct Grant {
    pub memory: u32,
    pub reads: IntoIter<Bytes, Global>,
}

impl Model for Grant {
    ghost Value = { Granted };

    ghost view = { λ g. record { memory = g.memory; reads = into_iter_items g.reads } };
}
