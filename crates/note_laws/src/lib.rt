//! What an outcome of a cluster leaves in its story, and what is noted of its votes.
//!
//! There is no code here: `specs/Outcomes.antt` has what an outcome Refused leaves; each function below has one law as
//! its contract (`docs/PROMISES.md`, "The cluster").
#![tactic(auto)]

mod laws;

pub use laws::{beginnings_are_few, refused_are_noted, sites_are_many};
