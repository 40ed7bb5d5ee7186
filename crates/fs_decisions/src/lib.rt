//! What the rules decide of a call over a plain tree, before anything changes.
//!
//! The files that handles and names name, the numbers and the blocks that are free, the limits, and for each
//! procedure that changes a file or a name whether it may, and what it does then. A refusal is a
//! [`fs_checks::Status`]; the checks over the facts of one file are those of `fs_checks`. Nothing here
//! changes a tree, and nothing takes memory.
#![tactic(auto)]

mod chain;
mod decision;
mod directory;
mod given;
mod limits;
mod link;
mod live;
mod names;
mod numbers;
mod place;
mod planning;
mod remove;
mod set_attr;
mod space;
mod write;

pub use decision::Decision;
pub use directory::directory_of;
pub use given::GivenNumbers;
pub use limits::{check_limits, slots_with};
pub use link::may_link;
pub use live::{file_at, file_of};
pub use names::{is_taken, number_named, parent_of};
pub use numbers::first_free;
pub use place::place_for;
pub use planning::decided;
pub use remove::removed;
pub use set_attr::may_set_attr;
pub use space::free_blocks;
pub use write::{may_write, rise};
