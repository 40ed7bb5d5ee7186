ghost use Rattle.std.specs.Prelude.{◌≡◌};
ghost use Rattle.sfs_xdr.specs.Faults.{fault_of};
ghost use Rattle.sfs_xdr.specs.declared.arg_fault.ArgFault.TheVariants.{NoMemory as no_memory};

use crate::item_fault::ItemFault;
use sfs_base::NoMemory;
use std::error::Error;
use std::fmt;

/// Why the arguments or the result of a procedure could not be read.
#[derive(Clone, Copy, Debug, PartialEq, Eq)]
pub enum ArgFault {
    /// There is no such procedure.
    NoProcedure,
    /// The bytes do not begin with what belongs to the procedure.
    Garbage,
    /// Memory ran out.
    NoMemory,
}

impl From<ItemFault> for ArgFault {
    ghost from_gives = { λ item fault. fault ≡ fault_of item };

    fn from(fault: ItemFault) -> ArgFault {
        match fault {
            ItemFault::Malformed => ArgFault::Garbage,
            ItemFault::NoMemory => ArgFault::NoMemory,
        }
    }
}

impl From<NoMemory> for ArgFault {
    ghost from_gives = { λ _ fault. fault ≡ no_memory };

    fn from(_error: NoMemory) -> ArgFault {
        ArgFault::NoMemory
    }
}

impl fmt::Display for ArgFault {
    fn fmt<W: fmt::Write>(&self, f: &mut fmt::Formatter<W>) -> fmt::Result {
        match self {
            ArgFault::NoProcedure => write!(f, "there is no such procedure"),
            ArgFault::Garbage => write!(f, "the bytes do not belong to the procedure"),
            ArgFault::NoMemory => write!(f, "no memory"),
        }
    }
}

impl Error for ArgFault {}
