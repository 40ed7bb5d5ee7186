//! That a granted final always makes an answer that can be told, as a law.
//!
//! There is no code here. What `finish` and the writer of replies ask of a form and of reads is one record, and it holds of every
//! final that keeps the promise of a plan, with what it reads where it matches.
#![tactic(auto)]

mod laws;

pub use laws::granted_finals_answer;
