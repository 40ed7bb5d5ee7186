ghost use Rattle.std.specs.Prelude.{◌≡◌};
ghost use Rattle.mini_tx.specs.declared.mini_fault.MiniFault.TheVariants.{NoMemory as no_memory};

use sfs_base::NoMemory;
use std::error::Error;
use std::fmt;

/// Why items make no minitransaction.
#[derive(Clone, Copy, Debug, PartialEq, Eq)]
pub enum MiniFault {
    /// There is no item.
    Empty,
    /// There are more than [`crate::MAX_ITEMS`].
    TooManyItems,
    /// They have more than [`crate::MAX_ITEM_BYTES`] bytes in all, where a read item counts its length.
    TooLarge,
    /// This item is empty, of a memory node that is not there, or ends past the size.
    OutOfRange { item: u32 },
    /// This write item overlaps an earlier one.
    Overlap { item: u32 },
    /// Memory ran out.
    NoMemory,
}

impl fmt::Display for MiniFault {
    fn fmt<W: fmt::Write>(&self, f: &mut fmt::Formatter<W>) -> fmt::Result {
        match self {
            MiniFault::Empty => write!(f, "there is no item"),
            MiniFault::TooManyItems => write!(f, "there are too many items"),
            MiniFault::TooLarge => write!(f, "the items have too many bytes"),
            MiniFault::OutOfRange { item } => write!(f, "item {item} is out of range"),
            MiniFault::Overlap { item } => write!(f, "item {item} overlaps an earlier one"),
            MiniFault::NoMemory => write!(f, "no memory"),
        }
    }
}

impl Error for MiniFault {}

impl From<NoMemory> for MiniFault {
    ghost from_gives = { λ _ fault. fault ≡ no_memory };

    fn from(_error: NoMemory) -> MiniFault {
        MiniFault::NoMemory
    }
}
