//! The words on which every crate of SinfoniaFS stands.
//!
//! [`Seq`] is the list that public types hold: a `Vec` that contracts see as the list of its elements.
//! [`Table`] is a finite map from numbers.
//! [`NoMemory`] is the answer where memory ran out, and [`Failed`] that of an object of the outside
//! that counts its faults. `specs/` has what contracts say of counted faults, and of readers that
//! go through bytes from left to right.
#![tactic(auto)]

mod failed;
mod no_memory;
mod seq;
mod table;

pub use failed::Failed;
pub use no_memory::NoMemory;
pub use seq::Seq;
pub use table::Table;

/// Bytes, as contracts see them: a list of numbers below 256.
pub type Bytes = Seq<u8>;
