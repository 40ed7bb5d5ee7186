use crate::outcome::Outcome;
use crate::running::Running;
use mini_tx::{Mini, TxId};

/// What a vote makes of the minitransaction that runs.
#[derive(Debug, Drop)]
pub enum Progress {
    /// The votes of other participants are missing.
    Waits(Running),
    /// It has ended.
    Ends(Ending),
}

/// How a minitransaction has ended, and what its participants are told where there are several.
#[derive(Debug, Drop)]
pub struct Ending {
    pub id: TxId,
    pub mini: Mini,
    pub commit: bool,
    pub outcome: Outcome,
}
