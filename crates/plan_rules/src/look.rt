/// What a plan looks at.
#[derive(Clone, Copy, Debug, PartialEq, Eq)]
pub enum Look {
    /// The record of the file with this number.
    Record(u32),
    /// The chaining block of the file with this number that has this index in its list.
    Chaining(u32, u32),
    /// The group of slots of the directory with this number that has this index.
    Group(u32, u32),
    /// The bits of the blocks of this memory node.
    BlockBits(u32),
    /// The bits of the inodes of this memory node.
    InodeBits(u32),
}

/// What a look is at: what a final minitransaction compares once, however often it is looked at.
#[derive(Clone, Copy, Debug, PartialEq, Eq)]
pub enum Subject {
    /// The file with this number.
    File(u32),
    /// The maps of this memory node.
    Maps(u32),
}
