//! What a datagram that comes to a node comes to, over one plain tree: its reply, and the change that it makes.
//!
//! [`Outcome::of`] carries out a request on a tree. A world takes its replies from it, and a checker judges those of a
//! transcript by it.
#![tactic(auto)]

mod outcome;

pub use outcome::Outcome;
