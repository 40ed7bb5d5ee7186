//! The rules of a legal transcript as tests of what its lines told.
//!
//! Each call is exact against a test of `specs/Tests.antt`, and `proofs/TestLemmas.antt` shows of each test which rule of
//! `transcript_rules` it decides. What asks for a tree, and what asks for the next event of the schedule, is told
//! elsewhere.
//!
//! - `events`: the event that runs; `posts`: messages; `arrivals`: how datagrams end; `backups`: backups.
#![tactic(auto)]

mod arrivals;
mod backups;
mod events;
mod kinds;
mod posts;

pub use arrivals::{drops_well, points_well, replies_well, retries_well};
pub use backups::{cuts_well, ends_well, fails_well, mounts_well};
pub use events::{is_next, is_number, is_under};
pub use posts::{falls_well, loses_well, posts_well};
