use crate::choice::Choice;
use sfs_base::Bytes;

/// What a call did to a disk in memory.
#[derive(Debug, Drop, PartialEq, Eq)]
pub enum Change {
    /// These bytes were written.
    Wrote {
        /// The place of the first of them.
        at: u64,
        /// The bytes, in order.
        bytes: Bytes,
    },
    /// A write failed: no byte of it arrived, and its range is pending.
    Missed {
        /// The first place of the range.
        at: u64,
        /// How many places it has.
        length: usize,
    },
    /// What was written became safe.
    Synced,
    /// The disk started anew after a crash.
    Restarted(Choice),
}
