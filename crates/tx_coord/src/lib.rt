//! A coordinator of minitransactions (Aguilera et al., "Sinfonia", SOSP 2007, section 4.1), as a pure machine.
//!
//! A [`Coordinator`] runs one minitransaction at a time. Each call gives the messages that are to be posted,
//! in order: the caller posts them, and hands in by [`Coordinator::hear`] what is delivered, as often and as
//! late as it likes. The votes decide: it is committed exactly where the first vote of each participant that
//! counts is Granted. It keeps no log, so that it may vanish at any moment; after [`NoMemory`] it is of no
//! more use. `specs/Rules.antt` says what each call does, and each contract cites it
//! (`docs/PROMISES.md`, "A coordinator").
#![tactic(auto)]

mod coordinator;
mod decisions;
mod done;
mod finishing;
mod fit;
mod gathered;
mod grant;
mod laws;
mod outcome;
mod outgoing;
mod participants;
mod progress;
mod running;
mod tx_state;
mod votes;

pub use coordinator::Coordinator;
pub use finishing::MAX_FINISHING;
pub use laws::{
    committed_where_all_granted, decisions_are_finished, oldest_goes, votes_are_counted,
};
pub use mini_tx::{Message, Mini, TxId};
pub use outcome::Outcome;
pub use outgoing::{Outbox, Outgoing};
pub use sfs_base::NoMemory;
pub use tx_state::TxState;
