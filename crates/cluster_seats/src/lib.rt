//! The NFS nodes of a cluster: the coordinator of each.
//!
//! [`Seats`] has them by their numbers; each call goes to one coordinator, and leaves the others as they were
//! (`specs/Seats.antt`).
#![tactic(auto)]

mod seats;

pub use seats::Seats;
pub use tx_coord::{Outbox, Outcome, TxState};
