/// What comes next.
#[derive(Clone, Copy, Debug, PartialEq, Eq)]
pub enum Stage {
    /// The cluster.
    Cluster,
    /// The turns, and the events behind them.
    Turns,
    /// Nothing.
    Ended,
}
