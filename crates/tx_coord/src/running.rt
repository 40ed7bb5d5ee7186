use crate::grant::Grant;
use mini_tx::{Mini, TxId};
use sfs_base::Seq;

/// The minitransaction that runs, with the votes that were counted, oldest first.
#[derive(Debug, Drop)]
pub struct Running {
    pub id: TxId,
    pub mini: Mini,
    pub grants: Seq<Grant>,
}
