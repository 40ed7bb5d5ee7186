//! The command `make SEED COUNT`: it writes the schedule of a number.
//!
//! [`make_schedule`] takes the events from a generator one after another, gathers their lines, and writes what is
//! gathered in pieces, so that it keeps one piece and the events of one turn.
#![tactic(auto)]

mod command;
mod making;

pub use command::make_schedule;
