//! The planners of the procedures that tell of one file: GETATTR, READLINK, READ and READDIR.
//!
//! [`get_attr`], [`read_link`], [`read`] and [`read_dir`] look at the parts of a work set that they need, in order, and make
//! their checks. What lacks a part, or fails a check, ends by a [`plan_looks::Stop`]; else each says what the final minitransaction reads and
//! how its answer is made of that. [`fattr_of`] is what a client is told of a file by its record.
#![tactic(auto)]

mod attr;
mod blocks;
mod chains;
mod dir;
mod groups;
mod link;
mod listing;
mod part;

pub use attr::{fattr_of, get_attr, ready};
pub use chains::look_chains;
pub use dir::read_dir;
pub use link::read_link;
pub use part::read;
