//! The lines of a schedule: what comes to a cluster, event by event.
//!
//! A schedule is a text of a line for each [`Event`]. [`read_line`] takes a line without its newline, and takes
//! exactly the lines of the grammar, which `specs/Grammar.antt` states as the words of each event; each event has
//! one spelling. [`write_line`] gives it, [`append_line`] puts it at the end of a buffer. That each spelling is
//! read as its event and nothing else is read are laws, carried by the functions of `laws`. [`read_told`] reads
//! the words of an event within another line.
#![tactic(auto)]

mod controls;
mod event;
mod laws;
mod names;
mod reading;
mod start_choice;
mod writing;

pub use controls::actor_of;
pub use event::Event;
pub use laws::{events_are_lines, events_are_read_exactly, events_have_their_own_spellings};
pub use line_words::{LineFault, MAX_DATAGRAM_BYTES, MAX_LINE_BYTES, MAX_LINES};
pub use mini_tx::Actor;
pub use reading::{event_of, read_line, read_told};
pub use sfs_base::{Bytes, NoMemory};
pub use start_choice::StartChoice;
pub use writing::{append_line, write_line};

/// The events of a schedule, in order.
pub type Events = sfs_base::Seq<Event>;
