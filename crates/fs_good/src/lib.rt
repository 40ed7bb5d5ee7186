//! Whether a tree is a file system.
//!
//! `IsGood` of `fs_rules` says what a file system is. [`is_good`] decides it of any tree. No file is compared with
//! another one: its time grows with the files, slots and blocks and the logarithm of their number. The names of one
//! directory are put into a set of references; where there is no memory for it, they are compared with each other.
//!
//! - Each file is looked at by itself (`place`, `own`): its number, mode, links, size and blocks or slots. A slot
//!   that names a directory has to lie in the directory that this one has as its parent.
//! - How often each number is named is counted in one pass over all slots (`counts`). A directory that is named once is
//!   then named by its parent.
//! - Parents lead to the root where each directory is reached from it by the slots (`reached`).
#![tactic(auto)]

mod counts;
mod good;
mod name;
mod own;
mod place;
mod reached;
mod shape;
mod slots;
mod stored;

pub use good::is_good;
pub use name::is_name;
