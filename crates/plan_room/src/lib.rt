//! Free blocks for a file, by the maps of the memory nodes that are held.
//!
//! [`look_room`] looks at the maps of memory nodes, from the file's own on in a circle, until enough blocks are free on them, and
//! gives the lowest free ones of each ([`Places`]). [`marked`] is the map of a memory node once blocks were taken or given up.
//! The laws say that what is taken is free, and no block twice.
#![tactic(auto)]

mod laws;
mod marks;
mod picking;
mod room;

pub use laws::picked_are_free;
pub use marks::marked;
pub use picking::Places;
pub use room::look_room;
