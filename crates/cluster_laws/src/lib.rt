//! What the code of a cluster may rest on of its story.
//!
//! There is no code here: `specs/Doubts.antt` says which minitransactions of a story are in doubt and how each step
//! changes that, `specs/Reactions.antt` what a memory node's answer tells of its entry, and
//! `specs/Sending.antt` who sends what to memory nodes; each function below has one
//! law as its contract (`docs/PROMISES.md`, "The cluster").
#![tactic(auto)]

mod laws;

pub use laws::{
    answers_tell_grants, beginnings_are_in_doubt, copies_stay, counts_keep_doubts,
    doubts_are_alike, nodes_send_to_memories, refused_are_not_in_doubt,
};
