use sfs_base::{Bytes, Seq};

/// What each memory node holds, in their order.
pub type Parts = Seq<Bytes>;

/// What all memory nodes hold, with the number of blocks and of inodes that each has.
#[derive(Debug, Clone, PartialEq, Eq, Drop)]
pub struct Images {
    pub blocks: u32,
    pub inodes: u32,
    pub parts: Parts,
}
