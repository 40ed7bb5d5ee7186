//! Blocks of a directory: its names, and the files that they name.
//!
//! A block has [`SLOTS_PER_BLOCK`] slots. A [`Slot`] is empty, or has the number of a file and its name.
//! `specs/Slots.antt` has the bytes of a block in order; [`read_slots`] and [`write_slots`] are the inverse
//! of each other. [`find`] and [`lowest_empty`] are the plain search through the slots. Which names a
//! directory may have, and of which files, is a rule of the tree and not of its blocks. Only [`read_slots`]
//! takes memory.
#![tactic(auto)]

mod block;
mod laws;
mod search;
mod slot;
mod slot_fault;

pub use block::{are_slots, read_slots, write_slots};
pub use fs_layout::{BLOCK_BYTES, MAX_NAME_BYTES, SLOTS_PER_BLOCK};
pub use laws::slots_have_one_value;
pub use search::{find, lowest_empty};
pub use sfs_base::{Bytes, NoMemory, Seq};
pub use slot::{SLOT_BYTES, Slot, Slots};
pub use slot_fault::SlotFault;
