ghost use Rattle.std.specs.Prelude.{◌≡◌};
ghost use Rattle.fs_reader.specs.declared.tree_fault.TreeFault.TheVariants.{NoMemory};

use std::alloc::{AllocError, AllocFailed};
use std::error::Error;
use std::fmt;

/// Why no tree was read.
#[derive(Clone, Copy, Debug, PartialEq, Eq)]
pub enum TreeFault {
    /// The images stand for no tree.
    NoTree,
    /// Memory ran out.
    NoMemory,
}

impl fmt::Display for TreeFault {
    fn fmt<W: fmt::Write>(&self, f: &mut fmt::Formatter<W>) -> fmt::Result {
        match self {
            TreeFault::NoTree => write!(f, "the images stand for no tree"),
            TreeFault::NoMemory => write!(f, "no memory"),
        }
    }
}

impl Error for TreeFault {}

impl From<sfs_base::NoMemory> for TreeFault {
    ghost from_gives = { λ error fault. fault ≡ NoMemory };

    fn from(_error: sfs_base::NoMemory) -> TreeFault {
        TreeFault::NoMemory
    }
}

impl From<AllocError> for TreeFault {
    ghost from_gives = { λ error fault. fault ≡ NoMemory };

    fn from(_error: AllocError) -> TreeFault {
        TreeFault::NoMemory
    }
}

impl<T: Drop> From<AllocFailed<T>> for TreeFault {
    ghost from_gives = { λ error fault. fault ≡ NoMemory };

    fn from(_error: AllocFailed<T>) -> TreeFault {
        TreeFault::NoMemory
    }
}
