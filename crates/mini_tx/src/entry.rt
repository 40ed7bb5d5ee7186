use crate::Numbers;
use crate::cut_id::CutId;
use crate::range::Ranges;
use crate::tx_id::TxId;
use crate::vote::Vote;
use crate::write_at::Writes;

/// An entry of a memory node's log (`docs/FORMATS.md`, "Entries of a log").
#[derive(Debug, Clone, PartialEq, Eq, Drop)]
pub enum Entry {
    /// A minitransaction of one memory node was granted, and its writes are made.
    Single {
        id: TxId,
        vote: Vote,
        writes: Writes,
    },
    /// A minitransaction of several memory nodes was granted: its ranges are locked until it is decided.
    Prepared {
        id: TxId,
        participants: Numbers,
        vote: Vote,
        ranges: Ranges,
        writes: Writes,
    },
    /// A minitransaction was not granted.
    Refused {
        id: TxId,
        vote: Vote,
    },
    /// What was decided of a minitransaction of several memory nodes.
    Decided {
        id: TxId,
        commit: bool,
    },
    /// The record of a decided minitransaction was let go.
    Forgotten {
        id: TxId,
    },
    /// The greatest cut that was held.
    Cut {
        cut: CutId,
    },
    /// The greatest identifier of a coordinator that was voted on, with that vote.
    Floor {
        id: TxId,
        vote: Vote,
    },
}
