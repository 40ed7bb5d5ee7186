//! The trees of a transcript, as few as its rules allow.
//!
//! A reply names a prefix of the changes that is not before its arrival, so a tree is kept while an arrival that has not
//! ended and has made no change may name it ([`Trees`]); the reply to a change is made with the change. A backup's cut
//! keeps a copy of its own ([`Cuts`]), and the reply to a change is kept with its arrival ([`Replies`]).
#![tactic(auto)]

mod cuts;
mod replies;
mod trees;

pub use arrival_outcome::Outcome;
pub use cuts::Cuts;
pub use replies::Replies;
pub use trees::Trees;
