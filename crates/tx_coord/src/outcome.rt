use mini_tx::{Reads, Vote};

/// How a minitransaction ended.
#[derive(Debug, Clone, PartialEq, Eq, Drop)]
pub enum Outcome {
    /// All participants granted it: the bytes of its read items, in their order.
    Committed(Reads),
    /// A memory node voted otherwise, and how.
    Refused { memory: u32, vote: Vote },
}
