//! The calls of a cluster, over its parts.
//!
//! [`Parts`] has memory nodes, coordinators, the link and the book as one value. Each call is one act of a story: for
//! each story that the parts stood for before it, they stand for that story with the act behind it, and their disks hold
//! what it says (`specs/Parts.antt`).
#![tactic(auto)]

mod counted;
mod giving;
mod parts;

pub use cluster_steps::{Delivered, DownCause, Memories, MemorySlot, Went};
pub use counted::Counted;
pub use parts::Parts;
