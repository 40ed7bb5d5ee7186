ghost use Rattle.std.specs.Prelude.{◌≡◌, ◌+◌, ◌/◌, ◌^◌, ◌≤◌};
ghost use Rattle.std.specs.FinMap as map;
ghost use Rattle.fs_rules.specs.File as file;

use crate::entry::Entry;
use fs_layout::{REFERENCES_PER_CHAIN, SLOTS_PER_BLOCK};
use sfs_base::{Bytes, Seq, Table};

/// The bytes of a block, as a size counts them.
pub const BLOCK_BYTES: u32 = fs_layout::BLOCK_BYTES as u32;

/// The stored blocks of a file, by their index: [`BLOCK_BYTES`] bytes each.
pub type Blocks = Table<Bytes>;

/// The slots of a directory, in order: a multiple of [`SLOTS_PER_BLOCK`].
pub type Slots = Seq<Option<Entry>>;

/// What a file contains, by its kind.
#[derive(Debug, Drop)]
pub enum Content {
    /// The bytes of a regular file.
    Regular(Blocks),
    /// The path of a symbolic link.
    Link(Blocks),
    /// The names of a directory, and the directory in which its own name lies.
    Directory { slots: Slots, parent: u32 },
}

impl Content {
    /// How many blocks of the cluster a file with this content uses: the stored ones, and those that
    /// refer to them.
    pub fn used(&self) -> usize
        ensures { result ≡ file.used self.now }
    {
        match self {
            Content::Regular(blocks) => used_by(blocks),
            Content::Link(blocks) => used_by(blocks),
            Content::Directory { slots, .. } => {
                let count = slots.len() / SLOTS_PER_BLOCK;
                count + chains_up_to(count.checked_sub(1))
            }
        }
    }

    /// The number of the kind (RFC 1094, section 2.3.2).
    pub fn kind(&self) -> u32
        ensures { result ≡ file.kind_of self.now }
    {
        match self {
            Content::Regular(_) => 1,
            Content::Directory { .. } => 2,
            Content::Link(_) => 5,
        }
    }

    /// The bits of the kind in a mode (RFC 1094, section 2.3.5).
    pub fn type_bits(&self) -> u32
        ensures { result ≡ file.type_bits self.now }
    {
        match self {
            Content::Regular(_) => 0o100000,
            Content::Directory { .. } => 0o040000,
            Content::Link(_) => 0o120000,
        }
    }
}

// The stored blocks, and those that refer to them.
fn used_by(blocks: &Blocks) -> usize
    ensures { result ≡ map.len blocks.now + file.chains_up_to (file.greatest blocks.now) }
{
    match blocks.last_key() {
        Some(index) => blocks.len() + chains_up_to(Some(index as usize)),
        None => blocks.len(),
    }
}

/// How many blocks it takes to refer to blocks up to this index: [`REFERENCES_PER_CHAIN`] each, and none
/// where no block is stored.
pub fn chains_up_to(greatest: Option<usize>) -> usize
    ensures exact { result ≡ file.chains_up_to greatest }
    ensures small { result ≤ 2 ^ 64 / 510 + 1 }
{
    match greatest {
        Some(index) => index / REFERENCES_PER_CHAIN + 1,
        None => 0,
    }
}
