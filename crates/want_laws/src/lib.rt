//! That what a call wants can be fetched, as a law over the orders of all procedures.
//!
//! There is no code here. A part is told by what is held where its number is one of the cluster, the record of its file tells it,
//! and the chaining blocks that lead to it are held; a fetch asks for no more.
#![tactic(auto)]

mod laws;

pub use laws::wants_are_told;
