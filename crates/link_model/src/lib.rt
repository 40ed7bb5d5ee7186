//! The messages between actors, and who has them.
//!
//! A [`Link`] takes messages and gives each a number from 1 on. A [`SimLink`] keeps every message, so that it
//! can be given any number of times, in any order, or never: whoever drives it loses, repeats and reorders.
//! A [`LocalLink`] gives each message once, and keeps none that was given.
//!
//! Contracts see a link as what it shows of all that was ever posted on it (`specs/Links.antt`).
#![tactic(auto)]

mod copied;
mod link;
mod local_link;
mod place;
mod queue;
mod sim_link;
mod simulated;

pub use link::Link;
pub use local_link::LocalLink;
pub use mini_tx::{Actor, Message, Posted};
pub use place::Place;
pub use sfs_base::NoMemory;
pub use sim_link::SimLink;
