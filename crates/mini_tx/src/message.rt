use crate::Numbers;
use crate::cut_id::CutId;
use crate::held_answer::HeldAnswer;
use crate::kept_id::KeptIds;
use crate::placed_item::Placed;
use crate::tx_id::TxId;
use crate::vote::Vote;
use sfs_base::Bytes;

/// What actors tell each other.
#[derive(Debug, Clone, PartialEq, Eq, Drop)]
pub enum Message {
    /// A node asks a memory node to vote: the memory nodes that take part, and the receiver's items.
    Prepare {
        id: TxId,
        participants: Numbers,
        items: Placed,
    },
    /// A memory node votes.
    Voted {
        id: TxId,
        vote: Vote,
    },
    /// A node or the manager tells a memory node what was decided.
    Decide {
        id: TxId,
        commit: bool,
    },
    /// A memory node has heard what was decided.
    Done {
        id: TxId,
    },
    /// A memory node may let a decided record go.
    Forget {
        id: TxId,
    },
    /// The manager asks for the records that a memory node keeps.
    List,
    /// The least of these records, and the cut that is held.
    Kept {
        ids: KeptIds,
        cut: Option<CutId>,
    },
    /// The manager asks whether a memory node voted for a minitransaction.
    Ask {
        id: TxId,
    },
    /// A memory node tells whether it did.
    Answer {
        id: TxId,
        ok: bool,
    },
    /// The manager asks a memory node to hold a cut.
    Hold {
        cut: CutId,
    },
    /// What a memory node answers this.
    Held {
        cut: CutId,
        answer: HeldAnswer,
    },
    /// A memory node holds a cut no longer, and keeps its copy.
    Release {
        cut: CutId,
    },
    /// A memory node keeps the copy of a cut no longer.
    Drop {
        cut: CutId,
    },
    /// The manager asks for the piece of a copy that begins at a place.
    ReadCut {
        cut: CutId,
        place: u32,
    },
    /// The piece, or that there is no such copy.
    Piece {
        cut: CutId,
        place: u32,
        bytes: Option<Bytes>,
    },
}
