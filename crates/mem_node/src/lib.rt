//! A memory node: a participant of minitransactions with its redo log.
//!
//! A [`MemNode`] is what its log made of a stored image (`mem_rules`), and the log. [`MemNode::handle`] asks the
//! rules what is to be done with a message, appends the entry, and gives the answer only once the entry is
//! safe. [`MemNode::load`] takes all of it back from the disk, and [`MemNode::format`] makes a disk for it. What
//! a disk stands for, and what a call may do to it, are definitions (`specs/Disk.antt`, `specs/Node.antt`).
//! Built are the messages and entries of transactions; those of cuts are not.
//!
//! A caller owes that messages are fit, that nothing is pending on a disk that is handed in, and after
//! [`NodeFault::Down`] or [`NodeFault::Full`] another load.
#![tactic(auto)]

mod fresh_node;
mod laws;
mod load;
mod load_log;
mod mem_node;
mod node_fault;
mod replay;
mod shut;

pub use laws::{broken_disks_have_none, crash_images_stand_for_states, disks_have_one_state};
pub use mem_node::MemNode;
pub use mem_rules::Setup;
pub use node_fault::NodeFault;
