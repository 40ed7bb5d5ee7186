//! That the blocks which a planner picks may be taken, and that the maps which it marks tell who owns blocks then.
//!
//! There is no code here. The laws carry what is true of held maps to the images: who picks blocks by maps that a final compares
//! takes blocks that no file has, and a map that is put with their bits is that of the owners afterwards.
#![tactic(auto)]

mod laws;

pub use laws::{freed_maps_tell, marked_maps_tell, parts_are_placed, picked_may_be_taken};
