use crate::arrival::Arrival;
use crate::attempt::Attempt;
use mini_tx::Numbers;
use node_cache::Held;

/// An arrival that is worked on.
#[derive(Debug, Drop)]
pub struct Work {
    pub arrival: Arrival,
    /// What it has read so far.
    pub held: Held,
    /// How many of its minitransactions failed.
    pub failures: u32,
}

/// An arrival whose minitransaction runs.
#[derive(Debug, Drop)]
pub struct Running {
    pub work: Work,
    /// What this minitransaction is for.
    pub attempt: Attempt,
    /// The address of each of its items.
    pub places: Numbers,
    /// How many bytes each of its read items reads.
    pub sizes: Numbers,
}
