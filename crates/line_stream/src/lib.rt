//! Texts line by line: from a source in pieces, and to a sink in whole.
//!
//! [`LineReader`] reads a text line by line and keeps no more than one piece and one line; [`ScheduleReader`] reads
//! each line as an event. [`write_whole`] writes bytes in as many calls as the sink wants. [`Stop`] is what ends a
//! run before its time.
#![tactic(auto)]

mod found;
mod line_reader;
mod output;
mod schedule_reader;
mod stop;

pub use found::{Found, Scanned};
pub use line_reader::{LineReader, NEWLINE, PIECE_BYTES};
pub use output::write_whole;
pub use schedule_reader::ScheduleReader;
pub use stop::Stop;
