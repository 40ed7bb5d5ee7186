//! The texts of a run, and the streams that they come from and go to.
//!
//! A schedule is a text of a line for each [`Event`], and a transcript one of a line for each [`Line`]. What they are,
//! how they are read and written, and the laws of both grammars stand in `event_text` and `line_text`, over the words
//! of `line_words`; they are passed on here.
//!
//! [`Source`] and [`Sink`] are the two objects of the outside that a program reads from and writes
//! to. Each counts its faults, and may tell its bytes. [`PlanSource`] and [`PlanSink`] are both in
//! memory: they tell their bytes, and fail exactly at the calls that their lists name, and the sink
//! also where its room ends.
#![tactic(auto)]

mod plan_sink;
mod plan_source;
mod sink;
mod source;

pub use event_text::{
    Actor, Event, Events, StartChoice, append_line, events_are_lines, events_are_read_exactly,
    events_have_their_own_spellings, read_line, write_line,
};
pub use line_text::{
    BackupWhy, DownWhy, DropWhy, Line, Lines, RetryWhy, SentKind, append_out, lines_are_lines,
    lines_are_read_exactly, lines_have_their_own_spellings, read_out, write_out,
};
pub use line_words::{LineFault, MAX_DATAGRAM_BYTES, MAX_LINE_BYTES, MAX_LINES};
pub use plan_sink::PlanSink;
pub use plan_source::PlanSource;
use sfs_base::Seq;
pub use sfs_base::{Bytes, Failed, NoMemory};
pub use sink::Sink;
pub use source::Source;

/// The numbers of the calls that fail, in any order; the first call has the number 1.
pub type Calls = Seq<u64>;
