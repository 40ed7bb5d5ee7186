//! That a call which is refused has a status that a client can be told, as a law over the orders of all procedures.
//!
//! There is no code here.
#![tactic(auto)]

mod laws;

pub use laws::refusals_are_told;
