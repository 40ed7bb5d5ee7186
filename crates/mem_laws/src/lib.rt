//! A memory node votes as the memory node of the transaction protocol's machine does.
//!
//! There is no code here: `specs/Shown.antt` says how what a memory node has and does (`mem_rules`) shows in the
//! machine of [`tx_actors`], where an identifier is a number and an item is its cells, and each function below has one
//! law as its contract (`docs/PROMISES.md`, "A memory node").
#![tactic(auto)]

mod laws;

pub use laws::{
    answers_are_the_machines, answers_leave_the_same, decisions_are_the_machines,
    decisions_leave_the_same, drops_are_the_machines, flat_memories_are_alike,
    forgetting_is_the_machines, forgetting_leaves_the_same, held_cuts_are_the_machines,
    holds_are_the_machines, listed_cuts_are_the_machines, lists_are_the_machines,
    loaded_clusters_show, loaded_nodes_show, minis_are_told, minis_match_alike, minis_read_alike,
    minis_write_alike, opened_nodes_show, others_leave_it, participants_are_the_tables,
    reactions_are_the_machines, reads_are_the_machines, releases_are_the_machines,
    rules_are_the_machines, states_are_the_machines, valid_minis_fit, votes_are_the_machines,
};
