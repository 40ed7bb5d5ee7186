ghost use Rattle.std.specs.Prelude.{◌≡◌};

use sfs_base::{Failed as DiskFailed, NoMemory as OutOfMemory};
use std::alloc::AllocError;
use std::error::Error;
use std::fmt;

/// Why a log was not loaded, or an entry not appended.
#[derive(Clone, Copy, Debug, PartialEq, Eq)]
pub enum LogFault {
    /// The disk failed.
    Failed,
    /// The entry would end past the log's limit.
    Full,
    /// At this place of the disk stands an open gate whose entry would end past the log's limit. No log
    /// that was written here has one.
    Damaged {
        /// The place of the gate.
        at: u64,
    },
    /// There is no memory.
    NoMemory,
}

impl fmt::Display for LogFault {
    fn fmt<W: fmt::Write>(&self, f: &mut fmt::Formatter<W>) -> fmt::Result {
        match self {
            LogFault::Failed => write!(f, "the disk failed"),
            LogFault::Full => write!(f, "the log is full"),
            LogFault::Damaged { at } => write!(f, "the log is damaged at {at}"),
            LogFault::NoMemory => write!(f, "no memory"),
        }
    }
}

impl Error for LogFault {}

impl From<DiskFailed> for LogFault {
    ghost use Rattle.gate_log.specs.declared.log_fault.LogFault.TheVariants.{Failed};

    ghost from_gives = { λ _ fault. fault ≡ Failed };

    fn from(_failed: DiskFailed) -> LogFault {
        LogFault::Failed
    }
}

impl From<OutOfMemory> for LogFault {
    ghost use Rattle.gate_log.specs.declared.log_fault.LogFault.TheVariants.{NoMemory};

    ghost from_gives = { λ _ fault. fault ≡ NoMemory };

    fn from(_error: OutOfMemory) -> LogFault {
        LogFault::NoMemory
    }
}

impl From<AllocError> for LogFault {
    ghost use Rattle.gate_log.specs.declared.log_fault.LogFault.TheVariants.{NoMemory};

    ghost from_gives = { λ _ fault. fault ≡ NoMemory };

    fn from(_error: AllocError) -> LogFault {
        LogFault::NoMemory
    }
}
