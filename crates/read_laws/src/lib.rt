//! What the reading procedures answer from what is held, and why this is what the rules of the file system answer.
//!
//! There is no code here: `specs/Answers.antt` says what GETATTR, LOOKUP and STATFS read and answer once no part is wanted, and the
//! laws say of each that this is the answer of the tree for which a flat memory stands, where what was looked at is the
//! memory's own.
#![tactic(auto)]

mod laws;

pub use laws::{
    get_attr_answers, lookup_answers, own_looks_match, read_finals_keep_promise, stat_fs_answers,
};
