use crate::cut_id::CutId;
use crate::tx_id::TxId;

/// What a memory node answers the manager's wish to hold a cut.
#[derive(Clone, Copy, Debug, PartialEq, Eq)]
pub enum HeldAnswer {
    /// The image is copied, and the cut is held.
    Copied,
    /// Something is locked: the least minitransaction that holds a lock.
    Locked { holder: TxId },
    /// The cut is at or below the greatest one that was held before.
    Past { floor: CutId },
}
