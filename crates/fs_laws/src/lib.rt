//! The laws of the plain file system.
//!
//! There is no code here: `fs_rules` says what each procedure checks, changes and answers, and what makes a
//! tree a file system. Each function below has one law as its contract: a cluster begins with a file
//! system, every call leaves one, its numbers stay within their words, and every answer is one that a client
//! can be told.
#![tactic(auto)]

mod laws;

pub use laws::{answers_can_be_told, fresh_is_good, good_stays_good, words_stay_words};
