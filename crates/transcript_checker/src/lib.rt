//! The checker of a transcript: it judges line by line, and is exact.
//!
//! [`Checker`] holds what the lines so far tell, and the trees that later lines may still name (`transcript_trees`). It
//! takes the next line of a transcript, and says whether that may stand behind them. It judges by the plain tree alone: at
//! most one step of the tree for a change and one for a reply.
//!
//! - `checker`: the checker; `beginning`: lines that begin an event, and the last line; `plain`: lines that need no tree;
//!   `trees`: changes, replies, cuts, and listings.
#![tactic(auto)]

mod beginning;
mod checker;
mod plain;
mod trees;

pub use checker::Checker;
