//! A large schedule from a number: arrivals, drains and crashes of memory nodes at a cluster of four nodes and four
//! memory nodes. [`Generator`] gives its events one after another, and is seen as the list of those that are left;
//! `specs/Making.antt` says which they are. The same number gives the same schedule.
#![tactic(auto)]

mod asking;
mod drawing;
mod draws;
mod events;
mod generator;
mod laws;
mod more;
mod stage;
mod turn_draws;
mod turns;

pub use generator::Generator;
pub use laws::schedules_can_be_written;
