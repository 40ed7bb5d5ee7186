ghost use Rattle.std.specs.Prelude.{◌≡◌};
ghost use Rattle.plan_keep.specs.declared.keep_fault.KeepFault.TheVariants.{NoMemory};

use std::alloc::{AllocError, AllocFailed};
use std::error::Error;
use std::fmt;

/// Why a part that was read is not held.
#[derive(Clone, Copy, Debug, PartialEq, Eq)]
pub enum KeepFault {
    /// What was read at this address of a memory node is no record, chaining block or block of slots of a file system
    /// (`docs/FORMATS.md`, "What a call wants").
    Damaged { memory: u32, at: u32 },
    /// Memory ran out.
    NoMemory,
}

impl fmt::Display for KeepFault {
    fn fmt<W: fmt::Write>(&self, f: &mut fmt::Formatter<W>) -> fmt::Result {
        match self {
            KeepFault::Damaged { memory, at } => write!(
                f,
                "memory node {memory} is damaged at {at}"
            ),
            KeepFault::NoMemory => write!(f, "no memory"),
        }
    }
}

impl Error for KeepFault {}

impl From<sfs_base::NoMemory> for KeepFault {
    ghost from_gives = { λ error fault. fault ≡ NoMemory };

    fn from(_error: sfs_base::NoMemory) -> KeepFault {
        KeepFault::NoMemory
    }
}

impl From<AllocError> for KeepFault {
    ghost from_gives = { λ error fault. fault ≡ NoMemory };

    fn from(_error: AllocError) -> KeepFault {
        KeepFault::NoMemory
    }
}

impl<T: Drop> From<AllocFailed<T>> for KeepFault {
    ghost from_gives = { λ error fault. fault ≡ NoMemory };

    fn from(_error: AllocFailed<T>) -> KeepFault {
        KeepFault::NoMemory
    }
}
