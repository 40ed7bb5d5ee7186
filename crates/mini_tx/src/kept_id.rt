use crate::Numbers;
use crate::tx_id::TxId;
use sfs_base::Seq;

/// Records that a memory node keeps.
pub type KeptIds = Seq<KeptId>;

/// A record that a memory node keeps: its minitransaction, and the memory nodes that take part.
#[derive(Debug, Clone, PartialEq, Eq, Drop)]
pub struct KeptId {
    pub id: TxId,
    pub participants: Numbers,
}
