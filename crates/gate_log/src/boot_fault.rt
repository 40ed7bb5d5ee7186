ghost use Rattle.std.specs.Prelude.{◌≡◌};

use sfs_base::Failed as DiskFailed;
use std::error::Error;
use std::fmt;

/// Why there is no next boot number.
#[derive(Clone, Copy, Debug, PartialEq, Eq)]
pub enum BootFault {
    /// The disk failed.
    Failed,
    /// The last number of a u64 was given.
    Spent,
}

impl fmt::Display for BootFault {
    fn fmt<W: fmt::Write>(&self, f: &mut fmt::Formatter<W>) -> fmt::Result {
        match self {
            BootFault::Failed => write!(f, "the disk failed"),
            BootFault::Spent => write!(f, "the boot numbers are spent"),
        }
    }
}

impl Error for BootFault {}

impl From<DiskFailed> for BootFault {
    ghost use Rattle.gate_log.specs.declared.boot_fault.BootFault.TheVariants.{Failed};

    ghost from_gives = { λ _ fault. fault ≡ Failed };

    fn from(_failed: DiskFailed) -> BootFault {
        BootFault::Failed
    }
}
