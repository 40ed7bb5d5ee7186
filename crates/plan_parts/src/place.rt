ghost use Rattle.std.specs.Prelude.{◌≡◌, ◌<◌, ◌^◌, suc};
ghost use Rattle.fs_image.specs.Owners.{Chain, Block};
ghost use Rattle.fs_image.specs.Places.{layout_of};
ghost use Rattle.fs_layout.specs.Places.{record_at};
ghost use Rattle.plan_rules.specs.Told.{memory_at, inode_at, place_of};

use crate::lookup::{chain_of, record_of};
use fs_layout::{INODE_BYTES, INODES_AT, Layout, MAX_INODES, REFERENCES_PER_CHAIN, Reference};
use fs_rules::Geometry;
use node_cache::Held;

/// The memory node on which the record of the file with this number lies.
pub fn memory_of(number: u32) -> u32
    ensures { result ≡ memory_at number }
{
    number.saturating_sub(1) / MAX_INODES
}

/// The inode of the file with this number, on its memory node.
pub fn inode_of(number: u32) -> u32
    ensures value { result ≡ inode_at number }
    ensures small { result < 16384 }
{
    number.saturating_sub(1) % MAX_INODES
}

/// The address of the record of the file with this number, on its memory node.
pub fn record_place(number: u32) -> u32
    ensures value { result ≡ record_at (inode_at number) }
    ensures small { result < 2 ^ 30 }
{
    INODES_AT + INODE_BYTES as u32 * inode_of(number)
}

/// The sizes of each image of a cluster.
pub fn layout_of(geometry: &Geometry) -> Layout
    ensures { result ≡ layout_of geometry.now }
{
    Layout {
        blocks: geometry.blocks,
        inodes: geometry.inodes,
    }
}

/// Where the chaining block of a file with this index lies, as what is held tells it. None where it tells none.
pub fn chain_place(held: &Held, number: u32, index: u32) -> Option<Reference>
    ensures { result ≡ place_of held.now number (Chain index) }
{
    if index == 0 {
        first_place(held, number)
    } else {
        place_behind(held, number, index - 1)
    }
}

// Where the first chaining block lies.
fn first_place(held: &Held, number: u32) -> Option<Reference>
    ensures { result ≡ place_of held.now number (Chain 0) }
{
    match record_of(held, number) {
        Some(attrs) => attrs.first,
        None => None,
    }
}

// Where the one behind the chaining block with this index lies.
fn place_behind(held: &Held, number: u32, index: u32) -> Option<Reference>
    ensures { result ≡ place_of held.now number (Chain (suc index)) }
{
    match chain_of(held, number, index) {
        Some(chain) => chain.next,
        None => None,
    }
}

/// Where the stored block of a file with this index lies, as what is held tells it. None where it tells none.
pub fn block_place(held: &Held, number: u32, index: u32) -> Option<Reference>
    ensures { result ≡ place_of held.now number (Block index) }
{
    let per_chain = REFERENCES_PER_CHAIN as u32;
    match chain_of(held, number, index / per_chain) {
        Some(chain) => chain.references.get((index % per_chain) as usize),
        None => None,
    }
}
