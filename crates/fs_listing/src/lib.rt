//! The listing of a plain tree: its files as lines of text, by which two trees are compared.
//!
//! [`listing`] gives a [`Listing`], one line for each file in ascending order of their numbers, and behind it a
//! line for each of its names or stored blocks (`docs/FORMATS.md`, "Listings"). It looks at the whole tree, and
//! writes each line once, into bytes of its own. [`append_file`] gives the lines of one file, for who writes them
//! as they are made.
#![tactic(auto)]

mod file_lines;
mod line;
mod tree_lines;
mod word;

pub use file_lines::append_file;
pub use tree_lines::{Listing, listing};
