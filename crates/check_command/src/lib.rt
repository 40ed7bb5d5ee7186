//! The command `check`: whether a transcript is legal for a schedule.
//!
//! [`check_texts`] reads a schedule and a transcript behind it (`check_input`), judges the transcript
//! (`transcript_check`), and writes one line: `holds`, `fails L` with the first line of the transcript that may not
//! stand, or `refused L` with the first line of the input that is outside its grammar (docs/FORMATS.md, "The input of
//! `check`").
#![tactic(auto)]

mod command;
mod found;

pub use command::check_texts;
pub use found::Found;
