//! The rules of the transaction protocol, and what holds of every run of them.
//!
//! There is no code here: `specs/` states the protocol as a relation over what was begun, logged and
//! posted, with no state of any actor (`docs/PROMISES.md`, "Transactions"), and each function below
//! has one law as its contract. A law holds of every list of events that the rules allow, from every
//! opening that is sound, of which a formatted cluster is one.
#![tactic(auto)]

mod laws;

pub use laws::{
    beginnings_are_new, decisions_exclude, decisions_stay, forgotten_is_over, formatted_opens,
    history_is_flat, images_are_flat, locks_are_apart, locks_stay_apart, logged_decisions_agree,
    looks_are_flat, named_was_begun, open_points_trade, points_are_the_committed, points_match,
    promises_are_kept, reads_are_flat, refusals_had_their_reason, refused_never_commits,
    runs_only_add, unlocked_is_flat, votes_commit,
};
