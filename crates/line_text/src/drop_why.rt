/// Why an arrival has no reply.
#[derive(Clone, Copy, Debug, PartialEq, Eq)]
pub enum DropWhy {
    /// The node is down.
    Down,
    /// The datagram is one that gets no reply.
    Silent,
    /// As many arrivals wait as a node keeps.
    Full,
    /// Bytes that were read at this address of this memory node are unfit.
    Damaged { memory: u32, at: u32 },
}
