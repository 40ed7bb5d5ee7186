use mini_tx::{TxId, Vote};

/// The greatest identifier of a coordinator that was voted on with an entry or forced to abort, with that
/// vote.
#[derive(Drop)]
pub struct Floor {
    pub id: TxId,
    pub vote: Vote,
}
