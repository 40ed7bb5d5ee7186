//! The looks of a plan: each answers what is held or names the part that is wanted, and notes what was looked at.
//!
//! A planner is straight-line code over a work set. [`look_record`], [`look_chain`], [`look_group`], [`look_block_bits`]
//! and [`look_inode_bits`] answer what is held and add it to the list of looks; [`look_file`] is the look at the file of a handle, with its check. What
//! lacks a part, or fails a check, ends by a [`Stop`]. [`look_name`] and [`look_names`] go through the slots of a
//! directory. [`finished`] makes a final minitransaction of what was looked at and what it reads and writes.
#![tactic(auto)]

mod comparing;
mod handles;
mod looks;
mod maps;
mod names;
mod stop;

pub use comparing::finished;
pub use handles::{LiveFile, look_file};
pub use looks::{Looks, look_chain, look_group, look_record};
pub use maps::{look_block_bits, look_inode_bits};
pub use names::{look_name, look_names};
pub use plan_rules::Look;
pub use stop::Stop;
