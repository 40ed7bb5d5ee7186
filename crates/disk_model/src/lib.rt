//! What a disk is, what a crash may leave of it, and disks in memory.
//!
//! [`Disk`] is the trait that all else is proved against. Its contract speaks of a history of moments,
//! each with the byte at every place and the ranges that were written since the last sync; a crash may
//! leave any bytes in those ranges, and the bytes that are there elsewhere (`specs/Crash.antt`). A
//! caller owes that each range ends below 2^64. What a disk counts, what a stop still lets pass, and
//! whether it may be used is its health (`specs/Health.antt`), which each call hands on.
//!
//! [`PlanDisk`] is a disk in memory that records its [`Change`]s and fails exactly at the calls that its
//! list names, and where it finds no memory. [`Stop`] lets a stated number of writes and syncs pass to
//! another disk and then fails until a restart. A [`Shelf`] is where the disks of a cluster lie, and [`PlanShelf`] is one in memory.
//! What the bytes of a log are, over which the crates above are proved, is stated in
//! `specs/LogBytes.antt`.
#![tactic(auto)]

mod change;
mod choice;
mod disk;
mod failing;
mod frame;
mod frames;
mod overwritten;
mod plan_disk;
mod plan_shelf;
mod shelf;
mod stop;
mod store;

pub use change::Change;
pub use choice::Choice;
pub use disk::Disk;
pub use plan_disk::PlanDisk;
pub use plan_shelf::PlanShelf;
use sfs_base::Seq;
pub use sfs_base::{Bytes, Failed, NoMemory};
pub use shelf::Shelf;
pub use stop::Stop;

/// The numbers of the calls that fail, in any order; the first call has the number 1.
pub type Calls = Seq<u64>;

/// The entries of a log, in order.
pub type Entries = Seq<Bytes>;
