//! What has happened to a cluster, as one value, and what each step makes of it.
//!
//! There is no code here: `specs/Story.antt` has the story, and `specs/Steps.antt` its steps, a function each.
//! They stand on the rules of a coordinator and of a memory node. Each function below has one record of worked
//! cases as its contract (`docs/PROMISES.md`, "The story of a cluster").
#![tactic(auto)]

mod laws;

pub use laws::{changes_are_counted, crashes_are_told, looks_are_cast};
