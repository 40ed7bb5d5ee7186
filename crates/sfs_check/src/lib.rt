//! The checkers: what images stand for.
//!
//! [`tree_of`] gives the one tree that the images of a cluster stand for (`fs_image`, `Stands`), or says that they
//! stand for none. It looks at what the images hold beside records and blocks (`images`), reads the tree
//! (`fs_reader`) and asks whether it is a file system (`fs_good`). Each image is read once.
#![tactic(auto)]

mod images;
mod tree;

pub use fs_reader::TreeFault;
pub use tree::tree_of;
