use mini_tx::TxId;

/// An identifier in doubt, and the participants that have not granted it.
#[derive(Debug, Drop)]
pub struct Doubt {
    pub id: TxId,
    pub waits: Vec<u32>,
}
