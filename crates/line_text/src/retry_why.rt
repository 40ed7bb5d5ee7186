use mini_tx::{CutId, TxId};

/// Why an arrival ended without a reply after it ran.
#[derive(Clone, Copy, Debug, PartialEq, Eq)]
pub enum RetryWhy {
    /// What it compares at this address of this memory node was another.
    Mismatch { memory: u32, at: u32 },
    /// What it needs of this memory node was held by another.
    Locked { memory: u32, holder: TxId },
    /// This memory node was held for this cut.
    Held { memory: u32, cut: CutId },
    /// It was forced to abort at this memory node.
    Forced { memory: u32 },
    /// Its node was told to give up.
    Unreached,
}
