use crate::outcome::Outcome;
use mini_tx::TxId;

/// What a coordinator is at.
#[derive(Debug, Clone, PartialEq, Eq, Drop)]
pub enum TxState {
    /// It may begin a minitransaction.
    Idle,
    /// It waits for the votes on this one.
    Running(TxId),
    /// The last one ended so, and the outcome was not taken yet.
    Done(Outcome),
}
