//! What holds of the story of a cluster.
//!
//! There is no code here: `specs/` has the statements over the story and its steps ([`story_rules`]), and each
//! function below has one law as its contract (`docs/PROMISES.md`, "The story of a cluster").
#![tactic(auto)]

mod laws;

pub use laws::{
    casts_are_the_entries, changes_are_granted, committed_is_a_change, committed_is_voted,
    granted_are_changes, identifiers_are_begun_once, sites_are_the_logs, steps_only_add,
    stories_go_on, told_stories_hold, votes_have_entries, what_is_named_was_begun,
};
