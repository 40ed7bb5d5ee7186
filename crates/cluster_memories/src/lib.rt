//! The memory nodes of a cluster.
//!
//! [`Memories`] has them by their numbers, those that are down among them; each call goes to one, and leaves the
//! others as they were. What they stand for of a story is defined in `specs/Memories.antt`.
#![tactic(auto)]

mod memories;

pub use cluster_parts::{Delivered, DownCause, Handled, MemorySlot};
pub use memories::Memories;
