//! The edits of the rules, carried out over a plain tree.
//!
//! Each function leaves the tree that the edits of the rules (`fs_rules`, `Edits`) make: a file is made with
//! its name, a name is given, taken or moved, and a file gets other attributes or bytes. Nothing here
//! decides: a caller sees to it that the files are there and that no limit is passed, which are the
//! conditions of each function. Where memory ran out, the tree is as before.
#![tactic(auto)]

mod attributes;
mod bytes;
mod change;
mod give;
mod make;
mod moving;
mod plan;
mod replaced;
mod take;

pub use attributes::with_attributes;
pub use bytes::with_bytes;
pub use change::{changed, put_back, take_out};
pub use give::give_one;
pub use make::{kept_at, make_file};
pub use moving::carry_over;
pub use plan::Plan;
pub use replaced::Replaced;
pub use take::{has_other_names, is_directory, take_entry};
