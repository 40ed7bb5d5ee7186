//! What an NFS node holds of the files of a cluster, of any staleness.
//!
//! An [`Entry`] has what is held of one file: its record, chaining blocks and groups of slots. [`Held`] is the work set
//! of a call: entries, and the maps of the memory nodes. A [`Want`] names a part that a call lacks. [`Cache`] keeps the
//! entries that were used last between calls, [`MAX_FILES`] at most, and one map at most of each memory node. When an
//! entry is true of the memory nodes, and that it stays so, is told by `specs/Truth.antt` and its laws.
#![tactic(auto)]

mod cache;
mod entry;
mod held;
mod laws;
mod want;

pub use cache::{Cache, MAX_FILES};
pub use entry::{BLOCKS_PER_GROUP, Chains, Entry, Groups, HeldChain, HeldGroup};
pub use fs_layout::MAX_MEMORIES;
pub use fs_rules::Geometry;
pub use held::{Held, HeldEntries, Maps};
pub use laws::{edits_keep_entries, matched_entries_are_own, true_entries_stay};
pub use sfs_base::{Bytes, NoMemory};
pub use want::Want;
