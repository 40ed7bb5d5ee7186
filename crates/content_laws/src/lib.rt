//! What READLINK, READ and READDIR answer from what is held, and why this is what the rules of the file system answer.
//!
//! There is no code here: `specs/Answers.antt` says what each of the three reads and answers once no part is wanted, and the
//! laws say that this is the answer of the tree for which a flat memory stands, where what was looked at is the memory's own.
#![tactic(auto)]

mod laws;

pub use laws::{read_answers, read_dir_answers, read_link_answers};
