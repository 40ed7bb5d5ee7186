ghost use Rattle.std.specs.Prelude.{◌≡◌};

use gate_log::LogFault;
use sfs_base::{Failed, NoMemory as OutOfMemory};
use std::alloc::AllocError;
use std::error::Error;
use std::fmt;

/// Why a memory node was not formatted or loaded, or handled no message.
#[derive(Clone, Copy, Debug, PartialEq, Eq)]
pub enum NodeFault {
    /// The disk failed. A memory node answers this until it is loaded again.
    Down,
    /// The entry of the vote would end past the log's limit. A memory node answers this until it is loaded
    /// again.
    Full,
    /// The disk is not formatted, or it is that of another memory node or cluster.
    Other,
    /// The log is damaged, or it holds an entry that is none or that this memory node cannot have written.
    Damaged {
        /// The place of that entry's gate on the disk.
        at: u64,
    },
    /// There is no memory.
    NoMemory,
}

impl fmt::Display for NodeFault {
    fn fmt<W: fmt::Write>(&self, f: &mut fmt::Formatter<W>) -> fmt::Result {
        match self {
            NodeFault::Down => write!(f, "the disk failed"),
            NodeFault::Full => write!(f, "the log is full"),
            NodeFault::Other => write!(f, "the disk is none of this memory node"),
            NodeFault::Damaged { at } => write!(f, "the log is damaged at {at}"),
            NodeFault::NoMemory => write!(f, "no memory"),
        }
    }
}

impl Error for NodeFault {}

impl From<LogFault> for NodeFault {
    ghost use Rattle.mem_node.specs.Fault.{node_fault};

    ghost from_gives = { λ fault given. given ≡ node_fault fault };

    fn from(fault: LogFault) -> NodeFault {
        match fault {
            LogFault::Failed => NodeFault::Down,
            LogFault::Full => NodeFault::Full,
            LogFault::Damaged { at } => NodeFault::Damaged { at },
            LogFault::NoMemory => NodeFault::NoMemory,
        }
    }
}

impl From<Failed> for NodeFault {
    ghost use Rattle.mem_node.specs.declared.node_fault.NodeFault.TheVariants.{Down};

    ghost from_gives = { λ _ fault. fault ≡ Down };

    fn from(_failed: Failed) -> NodeFault {
        NodeFault::Down
    }
}

impl From<OutOfMemory> for NodeFault {
    ghost use Rattle.mem_node.specs.declared.node_fault.NodeFault.TheVariants.{NoMemory};

    ghost from_gives = { λ _ fault. fault ≡ NoMemory };

    fn from(_error: OutOfMemory) -> NodeFault {
        NodeFault::NoMemory
    }
}

impl From<AllocError> for NodeFault {
    ghost use Rattle.mem_node.specs.declared.node_fault.NodeFault.TheVariants.{NoMemory};

    ghost from_gives = { λ _ fault. fault ≡ NoMemory };

    fn from(_error: AllocError) -> NodeFault {
        NodeFault::NoMemory
    }
}
