//! The recovery of orphans does what the manager of the transaction protocol's machine does.
//!
//! There is no code here: `specs/Shown.antt` says how what a [`tx_recover`] recoverer has and does shows in the
//! manager of [`tx_actors`], where an identifier is a number and a message has no receiver, and each function below
//! has one law as its contract (`docs/PROMISES.md`, "The recovery of orphans").
#![tactic(auto)]

mod laws;

pub use laws::{
    answers_are_the_managers, done_is_the_managers, kept_is_the_managers, resends_are_the_managers,
};
