//! NFS version 2 messages (RFC 1094): the arguments and results of its eighteen procedures, both ways.
//!
//! A [`Call`] has a variant for each procedure, and an [`Answer`] one for each form of a result.
//! [`read_args`] and [`write_args`] read and spell arguments, [`read_answer`] and [`write_answer`]
//! results. A reader takes the value that the bytes begin with; what follows it, and the bytes that fill
//! an item up, may be any. What is spelled how is in `specs/`, procedure by procedure.
#![tactic(auto)]

mod answer;
mod answer_reader;
mod answer_writer;
mod args_reader;
mod args_writer;
mod call;
mod dir_entry;
mod fattr;
mod form;
mod handle;
mod laws;
mod limits;
mod sattr;
mod stamp;
mod status;

pub use answer::Answer;
pub use answer_reader::read_answer;
pub use answer_writer::write_answer;
pub use args_reader::read_args;
pub use args_writer::write_args;
pub use call::Call;
pub use dir_entry::{DirEntries, DirEntry};
pub use fattr::Fattr;
pub use handle::Handle;
pub use laws::{
    arguments_are_exact, arguments_are_written, results_are_exact, results_are_written,
};
pub use limits::{LAST_PROCEDURE, MAX_DATA_BYTES, MAX_NAME_BYTES, MAX_PATH_BYTES};
pub use sattr::Sattr;
pub use sfs_base::{Bytes, NoMemory};
pub use sfs_xdr::ArgFault;
pub use stamp::Stamp;
pub use status::is_fault;
