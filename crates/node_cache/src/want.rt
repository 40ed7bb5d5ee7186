/// A part of a cluster that a call wants to read (`docs/FORMATS.md`, "Images").
#[derive(Clone, Copy, Debug, PartialEq, Eq)]
pub enum Want {
    /// The record of the file with this number.
    Inode(u32),
    /// The chaining block of the file with this number that has this index in its list.
    Chain(u32, u32),
    /// The slots of the directory with this number that lie in its group of blocks with this index
    /// ([`BLOCKS_PER_GROUP`](crate::BLOCKS_PER_GROUP)).
    Slots(u32, u32),
    /// The page with both maps of this memory node.
    Map(u32),
}
