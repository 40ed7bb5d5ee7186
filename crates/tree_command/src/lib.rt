//! The command `tree`: what tree the images of a cluster stand for.
//!
//! [`write_tree`] reads a text that begins with a `cluster` line, behind which the images of the memory nodes stand
//! one after another, and writes the listing of the tree that they stand for, or the fault of the input
//! (docs/FORMATS.md, "The input of `tree`"). Each image is read into bytes of its own and kept once; the listing is
//! written file by file.
//!
//! - `head`, `cluster`: the first line, and the cluster that it names. It is read byte by byte, so that no byte of an
//!   image is read with it.
//! - `image`, `parts`: the images behind it.
//! - `answer`, `input_fault`, `shown`, `input`: what the input says.
//! - `output`, `listing`, `command`: what is written; `ending`, `stop`: how it ends.
#![tactic(auto)]

mod answer;
mod byte;
mod cluster;
mod command;
mod ending;
mod head;
mod image;
mod input;
mod input_fault;
mod listing;
mod output;
mod parts;
mod shown;
mod stop;

pub use answer::Answer;
pub use command::write_tree;
pub use ending::Ending;
pub use input_fault::InputFault;
pub use stop::Stop;
