//! The rules of the file system: what the whole product means.
//!
//! A [`PlainTree`] is a finite map from file numbers to files. The rules are definitions in `specs/`, in
//! the terms of RFC 1094 and in their own order: who may do what (`Access`), what files contain
//! (`Contents`, `Slots`), what a call changes (`Edits`), what each procedure checks, changes and answers,
//! and `Respond`, which gives all eighteen procedures as cases of one definition. `Good` says when a tree
//! is a file system. Nothing here knows where a file's bytes lie. A caller hands in the moment, who calls,
//! and the memory node from which on a new file's number is searched.
#![tactic(auto)]

mod access;
mod content;
mod entry;
mod file;
mod files;
mod geometry;
mod handle;
mod kept;
mod plain_tree;

pub use access::{READ, SEARCH, SUPERUSER, WRITE, is_allowed, is_of_group, may};
pub use content::{BLOCK_BYTES, Blocks, Content, Slots, chains_up_to};
pub use entry::Entry;
pub use file::File;
pub use files::Files;
pub use fs_layout::{
    Attrs, MAX_BLOCKS, MAX_INODES, MAX_MEMORIES, MAX_NAME_BYTES, REFERENCES_PER_CHAIN, Reference,
    SLOTS_PER_BLOCK,
};
pub use geometry::{Geometry, MAX_NODES};
pub use handle::{handle_of, number_at};
pub use kept::Kept;
pub use nfs_proto::{Answer, Call, Fattr, Handle, Sattr, Stamp};
pub use plain_tree::{PlainTree, ROOT};
pub use rpc_msg::Cred;
pub use sfs_base::{Bytes, NoMemory};
