//! What a note of a coordinator's votes says of the story of a cluster.
//!
//! There is no code here: `specs/Noted.antt` says when a note is true and what a true one tells; each function below
//! has one law as its contract (`docs/PROMISES.md`, "The parts of a cluster").
#![tactic(auto)]

mod laws;

pub use laws::{casts_are_told, notes_are_true};
