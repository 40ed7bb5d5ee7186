ghost use Rattle.std.specs.Prelude.{◌≡◌, ◌+◌, nat_lt, nat_le};
ghost use Rattle.mini_tx.specs.Minitransactions.{memory_of, place_of, bytes_of, is_write, is_outside, overlaps};

use sfs_base::{Bytes, Seq};

/// The items of a minitransaction, in order.
pub type Items = Seq<Item>;

/// One item of a minitransaction (Aguilera et al., "Sinfonia", SOSP 2007, section 3.1): bytes of a memory
/// node that are compared, read or written, from the address `at` on.
#[derive(Debug, Clone, PartialEq, Eq, Drop)]
pub enum Item {
    Compare { memory: u32, at: u32, bytes: Bytes },
    Read { memory: u32, at: u32, length: u32 },
    Write { memory: u32, at: u32, bytes: Bytes },
}

impl Item {
    /// The number of the memory node.
    pub(crate) fn memory(&self) -> u32
        ensures { result ≡ memory_of self.now }
    {
        match self {
            Item::Compare { memory, .. } | Item::Read { memory, .. } | Item::Write { memory, .. } =>
                *memory,
        }
    }

    /// The address of the first byte.
    pub(crate) fn place(&self) -> u32
        ensures { result ≡ place_of self.now }
    {
        match self {
            Item::Compare { at, .. } | Item::Read { at, .. } | Item::Write { at, .. } => *at,
        }
    }

    /// How many bytes it has: a read item has as many as it reads.
    pub(crate) fn bytes(&self) -> usize
        ensures { result ≡ bytes_of self.now }
    {
        match self {
            Item::Compare { bytes, .. } | Item::Write { bytes, .. } => bytes.len(),
            Item::Read { length, .. } => *length as usize,
        }
    }

    /// Whether it writes.
    pub(crate) fn is_write(&self) -> bool
        ensures { result ≡ is_write self.now }
    {
        matches!(self, Item::Write { .. })
    }

    /// Whether it is empty, of a memory node that is not there, or ends past the size.
    pub(crate) fn is_outside(&self, memories: u32, size: u32) -> bool
        ensures { result ≡ is_outside memories size self.now }
    {
        let bytes = self.bytes();
        bytes == 0 || self.memory() >= memories || !fits_below(self.place(), bytes, size)
    }

    /// Whether both write, and have a byte in common.
    pub(crate) fn overlaps(&self, other: &Item) -> bool
        ensures { result ≡ overlaps self.now other.now }
    {
        self.is_write()
            && other.is_write()
            && self.memory() == other.memory()
            && is_below_end(self.place(), other.place(), other.bytes())
            && is_below_end(other.place(), self.place(), self.bytes())
    }
}

// Whether so many bytes from `at` on end at or before the size.
fn fits_below(at: u32, bytes: usize, size: u32) -> bool
    ensures { result ≡ nat_le (at + bytes) size }
{
    at <= size && bytes <= (size - at) as usize
}

// Whether `at` lies before the end of so many bytes from `start` on.
fn is_below_end(at: u32, start: u32, bytes: usize) -> bool
    ensures { result ≡ nat_lt at (start + bytes) }
{
    at < start || ((at - start) as usize) < bytes
}
