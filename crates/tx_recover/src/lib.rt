//! The recovery of orphaned minitransactions (Aguilera et al., "Sinfonia", SOSP 2007, section 4.4), as a pure machine.
//!
//! A coordinator may vanish at any moment and leave records at memory nodes whose ranges stay locked. The
//! [`Recoverer`] of the manager finishes them by the votes alone: a sweep asks a memory node for the records that
//! it keeps, and each is then asked about at all its participants; where all of them voted for it, it is
//! committed, else aborted. Each call gives the messages that are to be posted, in order, and [`Recoverer::hear`]
//! takes what is delivered, as often and as late as it likes. It keeps no log; after [`NoMemory`] it is of no
//! more use. `specs/Rules.antt` says what each call does, and each contract cites it (`docs/PROMISES.md`, "The
//! recovery of orphans").
#![tactic(auto)]

mod laws;
mod notice;
mod recoverer;
mod tasks;
mod work;

pub use laws::{
    answers_decide, at_most_64_are_at_work, orphans_are_finished, the_65th_is_passed_over,
};
pub use mini_tx::{CutId, Message, TxId};
pub use notice::Notice;
pub use recoverer::Recoverer;
pub use sfs_base::NoMemory;
pub use tx_coord::{Outbox, Outgoing};
pub use work::{MAX_AT_WORK, Work};
