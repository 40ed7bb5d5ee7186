ghost use Rattle.std.specs.Prelude.{◌≡◌, map, IfOk};
ghost use Rattle.tx_recover.specs.Rules.{message_of, told};

use mini_tx::{Message, NoMemory, TxId};
use sfs_base::Seq;
use std::alloc::Global;
use tx_coord::{Outbox, Outgoing};

/// What the participants of an identifier are told.
#[derive(Clone, Copy, Debug, PartialEq, Eq)]
pub enum Notice {
    /// They are asked whether they voted for it.
    Ask(TxId),
    /// It is decided: committed, or aborted.
    Decide(TxId, bool),
    /// They may let its record go.
    Forget(TxId),
}

impl Notice {
    /// The message.
    fn message(self) -> Message
        ensures { result ≡ message_of self }
    {
        match self {
            Notice::Ask(id) => Message::Ask { id },
            Notice::Decide(id, commit) => Message::Decide { id, commit },
            Notice::Forget(id) => Message::Forget { id },
        }
    }

    /// The message for each of these memory nodes, in their order.
    pub(crate) fn to_all(self, alloc: Global, memories: &[u32]) -> Result<Outbox, NoMemory>
        ensures { IfOk result (λ posts. posts ≡ map (told self) memories.now) }
    {
        let mut posts = Seq::new(alloc);
        for memory in memories {
            posts.push(Outgoing {
                memory: *memory,
                message: self.message(),
            })?;
        }
        Ok(posts)
    }
}
