//! The parts of a cluster that a call wants, and what its final minitransaction compares.
//!
//! A plan makes [`Look`]s and checks, in an order that `specs/Orders.antt` has for each procedure.
#![tactic(auto)]

mod laws;
mod look;

pub use laws::{all_looked_at_is_held, examples_hold, matched_looks_are_own, orders_go_on};
pub use look::{Look, Subject};
