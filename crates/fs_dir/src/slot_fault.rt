ghost use Rattle.std.specs.Prelude.{◌≡◌};
ghost use Rattle.fs_dir.specs.declared.slot_fault.SlotFault.TheVariants.{NoMemory};

use std::alloc::{AllocError, AllocFailed};
use std::error::Error;
use std::fmt;

/// Why slots could not be read.
#[derive(Clone, Copy, Debug, PartialEq, Eq)]
pub enum SlotFault {
    /// The bytes are no block of a directory.
    Bad,
    /// Memory ran out.
    NoMemory,
}

impl fmt::Display for SlotFault {
    fn fmt<W: fmt::Write>(&self, f: &mut fmt::Formatter<W>) -> fmt::Result {
        match self {
            SlotFault::Bad => write!(f, "the bytes are no block of a directory"),
            SlotFault::NoMemory => write!(f, "no memory"),
        }
    }
}

impl Error for SlotFault {}

impl From<sfs_base::NoMemory> for SlotFault {
    ghost from_gives = { λ error fault. fault ≡ NoMemory };

    fn from(_error: sfs_base::NoMemory) -> SlotFault {
        SlotFault::NoMemory
    }
}

impl From<AllocError> for SlotFault {
    ghost from_gives = { λ error fault. fault ≡ NoMemory };

    fn from(_error: AllocError) -> SlotFault {
        SlotFault::NoMemory
    }
}

impl<T: Drop> From<AllocFailed<T>> for SlotFault {
    ghost from_gives = { λ error fault. fault ≡ NoMemory };

    fn from(_error: AllocFailed<T>) -> SlotFault {
        SlotFault::NoMemory
    }
}
