//! The small steps of an NFS node, each exact: what moves from the cache into a work set and back, what a vote that is
//! not Granted leaves and tells, and what is kept of a minitransaction that was begun.
//!
//! The definitions are those of `node_rules`.
#![tactic(auto)]

mod caching;
mod moving;
mod sending;
mod votes;

pub use caching::put_back;
pub use moving::take;
pub use sending::{places, sizes, written};
pub use votes::{cause_of, failed, is_mismatch};
