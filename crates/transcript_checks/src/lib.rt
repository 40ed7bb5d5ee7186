//! The decisions of what a legal transcript is, one by one, each exact.
//!
//! [`actors`](crate::is_actor): whose a message is; `kinds`: what a message says, and which one answers it; `ranks`: in
//! which order lines stand under an event. Which arrivals need the file system is told by `nfs_service`. The definitions
//! are those of `transcript_rules`.
#![tactic(auto)]

mod actors;
mod kinds;
mod ranks;

pub use actors::{is_actor, is_memory, is_there};
pub use kinds::{
    answers, is_answer, is_done, is_forcing_word, is_granted, is_held, is_hold_word, is_kept,
    is_piece, is_prepare, is_refusal,
};
pub use nfs_service::needs_files;
pub use ranks::{
    is_behind, is_lost_line, is_mounting_line, is_retry_line, is_sent, is_sent_by_memory, rank,
};
