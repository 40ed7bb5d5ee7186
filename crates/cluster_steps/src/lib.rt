//! The steps of a cluster, over its parts.
//!
//! Each function is one event at one actor: it changes that actor's part, the link and the book, and no other part.
//! What the parts stand for together, and how a step goes in the story, is defined in `specs/Live.antt`.
#![tactic(auto)]

mod memory_step;
mod node_step;
mod own_step;
mod posting;
mod queue;
mod running;
mod went;

pub use cluster_memories::{Delivered, DownCause, Handled, Memories, MemorySlot};
pub use memory_step::to_memory;
pub use node_step::to_node;
pub use own_step::{begin, resend};
pub use went::Went;
