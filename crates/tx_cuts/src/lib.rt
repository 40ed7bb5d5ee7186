//! Cuts, openings and crashes of a cluster that runs the transaction protocol.
//!
//! There is no code here: `specs/` adds to the rules of `tx_rules` what memory nodes hold, copy and
//! release, and when a cut is made (`docs/PROMISES.md`, "Cuts and openings"). Each function below has
//! one law as its contract: every piece of a cut is a part of the flat memory at the moment when the
//! cut was made; what any run leaves is sound to open from; and what a crash of several memory nodes
//! leaves is what a run leaves.
#![tactic(auto)]

mod laws;

pub use laws::{
    backup_ends_well, backups_are_flat, backups_end, copies_are_flat, crash_images_are_reached,
    crash_images_are_sound, crashed_states_are_sound, cut_promises_are_kept, cut_runs_are_runs,
    cuts_are_made_once, cuts_go_on, held_votes_were_held, holds_are_still, opening_ends_well,
    opens_again, records_may_wait, runs_are_sound, sound_opens, states_are_sound, whole_steps_join,
    wholes_are_cut_runs, wholes_are_states,
};
