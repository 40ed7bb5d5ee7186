//! The input of the command `check`: a schedule, and behind its `end` a transcript.
//!
//! [`read_input`] reads all of a source and says what it is: the events of the schedule and the lines of the
//! transcript, or the first line that is refused (docs/FORMATS.md, "The input of `check`").
//!
//! - `whole`: all bytes of a source.
//! - `splitting`: the lines of a text that lies in memory.
//! - `schedule`, `transcript`: the two texts; `input`: both.
#![tactic(auto)]

mod input;
mod schedule;
mod splitting;
mod transcript;
mod whole;

pub use event_text::Event;
pub use input::{Events, Input, Lines, read_input};
pub use line_stream::Stop;
pub use line_text::Line;
