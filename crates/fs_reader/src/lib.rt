//! Reads a tree back from the images that stand for it.
//!
//! What images stand for is said in `fs_image` (`Stands`). This crate goes the other way: from the bytes to the one
//! tree, exact both ways. A call that gives something gives what the images show; [`TreeFault::NoTree`] comes only
//! where no tree is there.
//!
//! Each image is read once, and no two files are compared. Where the parts of a file lie is a function of its record
//! and the blocks (`places`, `specs/Walk.antt`), so no list of places is kept. Who owns a block is one bit: `take`
//! takes the mark of a block, and finds that it has none where the block is free, or where another part was found in
//! it. The marks begin as the maps of the images; where each part of each file took its own and none is left, the
//! maps are those of the owners.
//!
//! - [`read_tree`]: the records in their order, each with the bit of its inode; the file of each live one, and what
//!   the free ones keep. At the end no mark is left. It gives the tree that the images show (`IsTreeRead`), and its
//!   `NoTree` says that the images stand for no tree of this cluster (`specs/Numbers.antt`).
//! - [`read_file`]: the file of a record. It reads the chaining blocks from the first one on, as many as the record
//!   tells and at most eight (`read_links`), the blocks to which each refers (`read_blocks`), and compares what the
//!   record tells of them. Its clauses are `IsFileRead` and `IsNoFile` (`specs/Files.antt`).
//! - The laws beneath: files that take their marks one after another share no block ([`files_take_theirs`]); where
//!   all took theirs and none is left, the blocks have owners ([`marks_tell_owners`]); and a file that images show is
//!   the one that is read ([`shown_files_are_read`]).
//!
//! Whether the tree is a file system is asked above (`fs_good`).
#![tactic(auto)]

mod blocks;
mod contents;
mod file;
mod laws;
mod links;
mod marks;
mod numbers;
mod places;
mod tree;
mod tree_fault;

pub use file::read_file;
pub use laws::{files_take_theirs, marks_tell_owners, shown_files_are_read};
pub use marks::is_marked;
pub use tree::read_tree;
pub use tree_fault::TreeFault;
