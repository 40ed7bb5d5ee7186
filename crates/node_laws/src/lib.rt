//! What holds of NFS nodes, as laws.
//!
//! There is no code here. The function has its law as its contract: whatever planner stands below, all that a node holds
//! of files is true of a flat memory after each event, where it was before and where what was read then is.
#![tactic(auto)]

mod laws;

pub use laws::entries_stay_true;
