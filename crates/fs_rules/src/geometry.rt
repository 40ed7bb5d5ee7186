ghost use Rattle.std.specs.Prelude.{◌≡◌, IsTrue, ◌↔◌};
ghost use Rattle.fs_rules.specs.Geometry.{IsWithinLimits, within_limits};

use fs_layout::{MAX_BLOCKS, MAX_INODES, MAX_MEMORIES};

/// The greatest number of NFS nodes of a cluster.
pub const MAX_NODES: u32 = 8;

/// How large a cluster is: its NFS nodes, its memory nodes, and the blocks and inodes of each of these.
#[derive(Clone, Copy, Debug, PartialEq, Eq)]
pub struct Geometry {
    pub nodes: u32,
    pub memories: u32,
    pub blocks: u32,
    pub inodes: u32,
}

impl Geometry {
    /// Whether each number is at least 1 and within its limit.
    pub fn is_within_limits(&self) -> bool
        ensures test { result ≡ within_limits self.now }
        ensures exact { IsTrue result ↔ IsWithinLimits self.now }
    {
        (1..=MAX_NODES).contains(&self.nodes)
            && (1..=MAX_MEMORIES).contains(&self.memories)
            && (1..=MAX_BLOCKS).contains(&self.blocks)
            && (1..=MAX_INODES).contains(&self.inodes)
    }
}
