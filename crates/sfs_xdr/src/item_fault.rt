ghost use Rattle.std.specs.Prelude.{◌≡◌};
ghost use Rattle.sfs_xdr.specs.declared.item_fault.ItemFault.TheVariants.{NoMemory as no_memory};

use sfs_base::NoMemory;
use std::error::Error;
use std::fmt;

/// Why a value could not be read.
#[derive(Clone, Copy, Debug, PartialEq, Eq)]
pub enum ItemFault {
    /// The bytes do not begin with a spelling of a value.
    Malformed,
    /// Memory ran out.
    NoMemory,
}

impl From<NoMemory> for ItemFault {
    ghost from_gives = { λ _ fault. fault ≡ no_memory };

    fn from(_error: NoMemory) -> ItemFault {
        ItemFault::NoMemory
    }
}

impl fmt::Display for ItemFault {
    fn fmt<W: fmt::Write>(&self, f: &mut fmt::Formatter<W>) -> fmt::Result {
        match self {
            ItemFault::Malformed => write!(f, "the bytes spell no value"),
            ItemFault::NoMemory => write!(f, "no memory"),
        }
    }
}

impl Error for ItemFault {}
