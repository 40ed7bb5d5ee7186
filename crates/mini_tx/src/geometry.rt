/// How many NFS nodes and memory nodes a cluster has, and how many blocks and inodes each memory node.
#[derive(Clone, Copy, Debug, PartialEq, Eq)]
pub struct Geometry4 {
    pub nodes: u32,
    pub memories: u32,
    pub blocks: u32,
    pub inodes: u32,
}
