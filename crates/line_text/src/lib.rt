//! The lines of a transcript: what a cluster did, line by line.
//!
//! A transcript is a text of a line for each [`Line`]. [`read_out`] takes a line without its newline, and takes
//! exactly the lines of the grammar, which `specs/Grammar.antt` states as the words of each line; each line has one
//! spelling. [`write_out`] gives it, [`append_out`] puts it at the end of a buffer. That each spelling is read as
//! its line and nothing else is read are laws, carried by the functions of `laws`.
#![tactic(auto)]

mod backup_why;
mod causes;
mod down_why;
mod drop_why;
mod laws;
mod line;
mod listed;
mod names;
mod reading;
mod retry_why;
mod sent;
mod sent_kind;
mod telling;
mod writing;

pub use backup_why::BackupWhy;
pub use down_why::DownWhy;
pub use drop_why::DropWhy;
pub use laws::{lines_are_lines, lines_are_read_exactly, lines_have_their_own_spellings};
pub use line::Line;
pub use line_words::{LineFault, MAX_LINE_BYTES};
pub use reading::read_out;
pub use retry_why::RetryWhy;
pub use sent_kind::SentKind;
pub use writing::{append_out, write_out};

/// The lines of a transcript, in order.
pub type Lines = sfs_base::Seq<Line>;
