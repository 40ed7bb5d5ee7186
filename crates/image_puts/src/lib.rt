//! What a final minitransaction puts into the regions of images, and what it leaves there.
//!
//! There is no code here. Each function has one law as its contract: a region into which something is put holds that at its
//! place, and all else is as it was ([`puts_are_put`]); so puts of the files of edits touch no other file
//! ([`puts_are_only`]). A map has the bits of the bytes that were put ([`fronts_are_put`]), and who owns which block once
//! some were given up and others taken is told by [`exchanges_are_owners`].
#![tactic(auto)]

mod laws;

pub use laws::{exchanges_are_owners, fronts_are_put, puts_are_only, puts_are_put};
