ghost use Rattle.std.specs.Prelude.{◌≡◌};
ghost use Rattle.cluster_steps.specs.Live.{is_refused as refuses, refused_now, running_in};

use mini_tx::TxId;
use tx_coord::{Outcome, TxState};

/// What runs.
pub(crate) fn running(state: &TxState) -> Option<TxId>
    ensures { result ≡ running_in state.now }
{
    match state {
        TxState::Running(id) => Some(*id),
        TxState::Idle | TxState::Done(_) => None,
    }
}

/// Whether the last one was refused.
fn is_refused(state: &TxState) -> bool
    ensures { result ≡ refuses state.now }
{
    match state {
        TxState::Done(outcome) => matches!(outcome, Outcome::Refused { .. }),
        TxState::Idle | TxState::Running(_) => false,
    }
}

/// What ran, where it is refused now.
pub(crate) fn refused(ran: Option<TxId>, state: &TxState) -> Option<TxId>
    ensures { result ≡ refused_now ran state.now }
{
    if is_refused(state) { ran } else { None }
}
