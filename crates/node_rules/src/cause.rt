use mini_tx::{CutId, TxId};

/// Why an arrival is not tried any more.
#[derive(Clone, Copy, Debug, PartialEq, Eq)]
pub enum Cause {
    /// Bytes that it compared at this address of a memory node were others.
    Mismatch { memory: u32, at: u32 },
    /// A minitransaction held a range on this memory node.
    Locked { memory: u32, holder: TxId },
    /// A cut was held on this memory node.
    Held { memory: u32, cut: CutId },
    /// This memory node was told to let it vote no more.
    Forced { memory: u32 },
    /// It was given up.
    Unreached,
}

/// Why an arrival gets no reply.
#[derive(Clone, Copy, Debug, PartialEq, Eq)]
pub enum Why {
    /// Its bytes are none that are answered.
    Silent,
    /// [`MAX_WAITING`](crate::MAX_WAITING) others wait.
    Full,
    /// What was read at this address of a memory node is of no file system.
    Damaged { memory: u32, at: u32 },
}
