//! A coordinator does what the coordinator of the transaction protocol's machine does.
//!
//! There is no code here: `specs/Shown.antt` says how what a [`tx_coord`] coordinator has and does shows in the
//! machine of [`tx_actors`], where an identifier is a number and a message has no receiver, and each function below
//! has one law as its contract (`docs/PROMISES.md`, "A coordinator").
#![tactic(auto)]

mod laws;

pub use laws::{
    beginnings_are_the_machines, done_is_the_machines, giving_up_is_the_machines,
    granted_votes_are_the_machines, participants_are_the_tables, refused_votes_are_the_machines,
    resends_are_the_machines, starts_are_the_machines,
};
