use mini_tx::{Numbers, TxId};

/// The greatest number of decided identifiers that a coordinator keeps as finishing: a further one pushes
/// out the oldest.
pub const MAX_FINISHING: usize = 32;

/// A decided identifier: its participants, and those of them that have not sent `done`, both ascending.
#[derive(Debug, Drop)]
pub struct Finishing {
    pub id: TxId,
    pub commit: bool,
    pub participants: Numbers,
    pub waits: Numbers,
}
