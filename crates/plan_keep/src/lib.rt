//! How what was read of a part is judged and held.
//!
//! [`keep`] adds to a work set just the part that a fetch read, and answers [`KeepFault::Damaged`] exactly where what was read
//! is unfit, with the address of the first record or block that is (`docs/FORMATS.md`, "What a call wants").
#![tactic(auto)]

mod groups;
mod keep_fault;
mod links;
mod receiving;
mod records;

pub use keep_fault::KeepFault;
pub use receiving::keep;
