//! Who has not granted yet what is in doubt.
//!
//! A minitransaction that changes something is committed by the last Granted vote of its participants. The
//! [`Ledger`] has one entry for each identifier of which a vote is missing, found by bisection, and tells
//! of a vote whether it is the last one. A contract sees the entries in ascending order of their identifiers
//! (`specs/Doubts.antt`).
//!
//! A caller enters an identifier once, before its participants vote, and lets it go where it will never be
//! granted by all of them.
#![tactic(auto)]

mod doubt;
mod ledger;
mod places;

pub use doubt::Doubt;
pub use ledger::Ledger;
pub use mini_tx::TxId;
pub use sfs_base::NoMemory;
