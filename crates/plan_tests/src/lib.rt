//! The tests of planners. [`serve`] takes a call over a flat memory in memory a step further: it plans, fetches the part that is
//! needed and holds it, or performs the final minitransaction and makes the answer of what that read. It stands in a crate
//! above the planners, so that none is proved once more for its tests.
#![tactic(auto)]

#[cfg(test)]
mod images;
#[cfg(test)]
mod reading;
mod serving;
#[cfg(test)]
mod wanting;
mod wants;

pub use serving::{SMALL, Step, empty, nothing_held, run, serve};
pub use wants::{Wants, wants_of};
