//! The parts of a cluster, one by one.
//!
//! A [`MemorySlot`] is a memory node that runs or is down, and a [`Book`] has what the cluster counts: the history,
//! and who has not granted yet what is in doubt. What they stand for of the story of a cluster is defined in
//! `specs/Slots.antt` and `specs/Books.antt`.
#![tactic(auto)]

mod book;
mod delivered;
mod granting;
mod memory_slot;

pub use book::Book;
pub use delivered::{Delivered, DownCause, Handled};
pub use granting::{grants, is_change, is_granted_vote, may_grant};
pub use memory_slot::MemorySlot;
