//! The bytes of a memory node's image: superblock, inode records, references, handles, and their places.
//!
//! A record is a list of words, numbers below 2^32 of four bytes each ([`read_words`], [`write_words`]);
//! `specs/` has one definition for each record, which names its words in order. A reader answers `None`
//! exactly where the bytes are no record, and a writer gives the one spelling, so that each is the
//! inverse of the other. [`Layout`] tells where the parts of an image lie, and [`InodePlace`] which inode
//! record belongs to a file number. No call takes memory.
#![tactic(auto)]

mod attrs;
mod handle;
mod inode;
mod inode_place;
mod laws;
mod layout;
mod reference;
mod superblock;
mod words;
mod zeros;

pub use attrs::Attrs;
pub use handle::{HANDLE_BYTES, read_handle, write_handle};
pub use inode::{INODE_BYTES, read_inode, write_inode};
pub use inode_place::InodePlace;
pub use laws::{
    handles_have_one_value, inodes_have_one_value, references_have_one_value,
    superblocks_have_one_value, words_are_items, words_have_one_value,
};
pub use layout::{
    BITMAPS_AT, BLOCK_BYTES, INODE_BITMAP_AT, INODES_AT, Layout, MAX_BLOCKS, MAX_INODES,
    MAX_MEMORIES, MAX_NAME_BYTES, REFERENCES_PER_CHAIN, SLOTS_PER_BLOCK, SUPERBLOCK_AT,
};
pub use reference::{NotAReference, Reference};
pub use superblock::{Superblock, read_superblock, write_superblock};
pub use words::{WORD_BYTES, read_words, write_words};
pub use zeros::are_zeros;
