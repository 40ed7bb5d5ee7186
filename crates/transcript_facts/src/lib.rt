//! What a transcript's lines tell, all but the trees, as one value.
//!
//! [`Facts`] has a field for each of the book of `transcript_rules`: the messages and the arrivals of
//! `transcript_book`, and beside them who is down ([`Downs`]), the backups ([`Backups`]), the lines of a listing that are
//! owed ([`Owed`]), and what is asked of the event that runs ([`Now`]).
#![tactic(auto)]

mod backups;
mod downs;
mod facts;
mod now;
mod owed;

pub use backups::Backups;
pub use downs::Downs;
pub use facts::Facts;
pub use now::Now;
pub use owed::Owed;
