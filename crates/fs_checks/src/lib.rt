//! The decisions of the procedures, over the few facts of a file that they look at.
//!
//! [`Facts`] are all that is kept of a file but for its bytes and names: a file of the plain tree has them,
//! and an inode record has. The checks of a procedure, in their order, are functions over them that give
//! the [`Status`] of the first that fails; so are the attributes after a SETATTR, and the record of a file
//! that is made. Each gives what the rules of `fs_rules` do for every file with these facts. What is not a
//! fact of one file, as whether a name is there, a call is handed.
#![tactic(auto)]

mod checks;
mod creating;
mod facts;
mod kind;
mod laws;
mod limits;
mod names;
mod naming;
mod removal;
mod set;
mod status;

pub use checks::check_pair;
pub use creating::check_new;
pub use facts::Facts;
pub use fs_layout::MAX_NAME_BYTES;
pub use kind::Kind;
pub use laws::checks_look_at_facts;
pub use limits::{MAX_LINKS, MAX_SLOTS, check_counts, check_rises, check_room};
pub use names::{check_name, is_dot, is_dot_dot, is_dots};
pub use naming::check_way;
pub use removal::Removal;
pub use set::{chosen, chosen_moment, is_set, nothing_set, sets_something, size_alone};
pub use status::Status;

/// The greatest size of a file, in bytes: eight chaining blocks refer to so many.
pub const MAX_FILE_BYTES: u32 = 16_711_680;
