//! The memory nodes of a cluster that is formatted.
//!
//! [`format`] takes a disk a memory node from a shelf, and makes each that of a fresh memory node. Where it is refused it
//! has given back every disk that it took. What it ensures is defined in `specs/Formats.antt`.
#![tactic(auto)]

mod cluster_fault;
mod formatting;
mod whole;

pub use cluster_fault::ClusterFault;
pub use cluster_memories::{Memories, MemorySlot};
pub use whole::{format, give_back};
