use std::error::Error;
use std::fmt;

/// Why a cluster was not formatted or loaded.
#[derive(Clone, Copy, Debug, PartialEq, Eq)]
pub enum ClusterFault {
    /// The shelf failed, or a disk.
    Failed,
    /// A disk is not formatted, or it is that of another actor or cluster.
    Other,
    /// The log of a memory node is damaged, or has an entry that it cannot have.
    Damaged {
        /// The place of that entry's gate on the disk.
        at: u64,
    },
    /// There is no memory, or a disk is starved.
    NoMemory,
}

impl fmt::Display for ClusterFault {
    fn fmt<W: fmt::Write>(&self, f: &mut fmt::Formatter<W>) -> fmt::Result {
        match self {
            ClusterFault::Failed => write!(f, "the shelf failed, or a disk"),
            ClusterFault::Other => write!(f, "a disk is none of this cluster"),
            ClusterFault::Damaged { at } => write!(f, "a log is damaged at {at}"),
            ClusterFault::NoMemory => write!(f, "no memory"),
        }
    }
}

impl Error for ClusterFault {}
