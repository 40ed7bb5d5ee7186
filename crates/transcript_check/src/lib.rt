//! Whether a transcript is legal for a schedule.
//!
//! [`check`] judges the lines of a transcript one after another (`transcript_checker`), and says that it holds, or which
//! line is the first that may not stand. The definition of a legal transcript is that of `transcript_rules`.
#![tactic(auto)]

mod judging;
mod verdict;

pub use event_text::Event;
pub use judging::check;
pub use line_text::Line;
pub use sfs_base::NoMemory;
pub use verdict::Verdict;
