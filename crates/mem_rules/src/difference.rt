use mini_tx::Bytes;

/// A compare item that differs: its place in the minitransaction, and the bytes that stand where it
/// compares.
#[derive(Drop)]
pub struct Difference {
    pub place: u32,
    pub kept: Bytes,
}
