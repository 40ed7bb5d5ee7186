//! What a file contains: its bytes and its names.
//!
//! Pure functions over the contents of the plain tree, each equal to its definition in the rules
//! (`fs_rules`): reading a part, writing bytes, setting a size, what a file would use after a write, and
//! the names of a directory. Bytes are copied by slices, and a call costs its own blocks or slots. Where
//! memory ran out, what was handed in is as before.
#![tactic(auto)]

mod listing;
mod naming;
mod pieces;
mod reading;
mod sizes;
mod slots;
mod using;
mod writing;

pub use listing::{Run, list_names};
pub use naming::{put_name, slots_after_put, take_name, used_after_put};
pub use reading::read_part;
pub use sizes::resize;
pub use slots::{file_named, is_in_use, slot_of};
pub use using::used_after_write;
pub use writing::write_bytes;
