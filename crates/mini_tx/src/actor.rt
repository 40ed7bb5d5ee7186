/// Who sends and receives messages: an NFS node or a memory node by its number, or the manager.
#[derive(Clone, Copy, Debug, PartialEq, Eq, PartialOrd, Ord)]
pub enum Actor {
    Node(u32),
    Memory(u32),
    Manager,
}
