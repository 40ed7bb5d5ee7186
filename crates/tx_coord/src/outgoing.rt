use mini_tx::Message;
use sfs_base::Seq;

/// The messages that one call posts, in this order.
pub type Outbox = Seq<Outgoing>;

/// A message for a memory node.
#[derive(Debug, Clone, PartialEq, Eq, Drop)]
pub struct Outgoing {
    pub memory: u32,
    pub message: Message,
}
