use crate::ended::Ended;
use nfs_proto::Stamp;
use sfs_base::Bytes;

/// A datagram that came to a node.
#[derive(Debug, Drop)]
pub struct Arrival {
    pub node: u32,
    pub moment: Stamp,
    pub bytes: Bytes,
    /// How many changes stood before it.
    pub points: u64,
    /// The event in which it came.
    pub under: u64,
    /// The change that it made, if it made one.
    pub point: Option<u64>,
    pub ended: Option<Ended>,
}
