//! The plain file system: what the whole product means.
//!
//! A [`Tree`] is a file system in memory: a finite map from file numbers to files, which is good at every
//! moment. [`Tree::respond`] answers one call and changes the tree as the rules of `fs_rules` say, and
//! tells whether anything changed; [`Tree::apply`] gives the answer alone. Nothing here knows where a
//! file's bytes lie. A caller hands in the moment, who calls, and the number for a file that is made.
#![tactic(auto)]

mod call_bytes;
mod change;
mod copy;
mod create;
mod link;
mod lookup;
mod make_dir;
mod new_file;
mod procedures;
mod read;
mod remove;
mod rename;
mod response;
mod set_attr;
mod space;
mod stop;
mod sym_link;
mod tree;
mod write;

pub use fs_checks::{MAX_FILE_BYTES, MAX_NAME_BYTES};
pub use fs_listing::Listing;
pub use fs_rules::{
    Answer, Attrs, BLOCK_BYTES, Blocks, Bytes, Call, Content, Cred, Entry, Fattr, File, Geometry,
    Handle, Kept, MAX_BLOCKS, MAX_INODES, MAX_MEMORIES, MAX_NODES, NoMemory, PlainTree,
    REFERENCES_PER_CHAIN, ROOT, Reference, SLOTS_PER_BLOCK, Sattr, Slots, Stamp, handle_of, may,
};
pub use response::{Change, Response};
pub use tree::Tree;
