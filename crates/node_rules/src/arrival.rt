use nfs_proto::{Call, Stamp};
use rpc_msg::Cred;

/// A call of the file system that came to a node.
#[derive(Debug, Drop)]
pub struct Arrival {
    /// Its number among all arrivals of the cluster.
    pub id: u32,
    /// The moment at which it came.
    pub now: Stamp,
    /// The number under which its client knows it.
    pub xid: u32,
    pub call: Call,
    pub cred: Cred,
}
