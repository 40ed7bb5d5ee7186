//! The actors of the transaction protocol: memory nodes, coordinators and the recovery manager.
//!
//! There is no code here: `specs/` has the functions that the code of each actor meets, and the whole
//! machine, which handles one input after another (`docs/PROMISES.md`, "Transactions"). Each function
//! below has one law as its contract. The first one carries the others over from `tx_rules`: every
//! state that the functions reach, by any inputs, is reached by a run of the rules.
#![tactic(auto)]

mod laws;

pub use laws::{
    above_is_not_passed, appending_makes, begun_is_below, committed_reads_are_flat,
    coordinator_finishes, coordinator_repeats, failed_never_commits, failures_had_their_reason,
    floors_are_greatest, formatted_clusters_are_serial, identifiers_are_ordered,
    identifiers_tell_their_coordinator, images_are_replayed, limits_are_kept,
    live_are_named_by_all, lone, looks_have_their_input, looks_have_their_moment,
    looks_of_outcomes_are_flat, manager_finishes, messages_may_disagree, numbers_stay,
    one_point_an_input, orphan, others_change_nothing, outcomes_stand, outcomes_stay,
    reactions_are_allowed, records_are_kept, sample_ends_well, states_are_runs, steps_join,
    two_phases, undecided_is_open,
};
