//! What a line more tells, as changes of facts.
//!
//! [`note`] is what a line under an event makes of them, and [`begin`] with [`happen`] what an event that begins does.
//! That the facts are then those of the book with this line is a lemma over the definitions of `transcript_rules`. What a
//! line makes of the trees, and the lines of a listing that are owed, are told elsewhere.
#![tactic(auto)]

mod beginning;
mod tell;

pub use beginning::{begin, happen};
pub use tell::note;
