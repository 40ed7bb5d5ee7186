use mini_tx::TxId;

/// Why a backup ended before it was done.
#[derive(Clone, Copy, Debug, PartialEq, Eq)]
pub enum BackupWhy {
    /// Something of this memory node was held by another.
    Locked { memory: u32, holder: TxId },
    /// This memory node lost the cut.
    Lost { memory: u32 },
    /// The vault failed.
    Vault,
    /// The manager was told to give up.
    Unreached,
}
