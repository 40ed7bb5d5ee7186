use crate::cause::{Cause, Why};
use mini_tx::Mini;
use sfs_base::{Bytes, Seq};

/// What a node gives to its caller.
#[derive(Debug, Drop)]
pub enum Output {
    /// This minitransaction is to be begun for an arrival. It makes the file with this number and generation, if any.
    Start {
        id: u32,
        mini: Mini,
        made: Option<(u32, u32)>,
    },
    /// The datagram that answers an arrival.
    Reply {
        id: u32,
        bytes: Bytes,
    },
    /// An arrival is not tried any more.
    Retry {
        id: u32,
        cause: Cause,
    },
    /// An arrival gets no reply.
    Dropped {
        id: u32,
        why: Why,
    },
}

/// What a node gives in an event, in order.
pub type Outputs = Seq<Output>;
