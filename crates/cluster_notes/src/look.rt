/// A Granted vote that has no entry.
#[derive(Clone, Copy, Debug, PartialEq, Eq, Drop)]
pub struct Look {
    /// The number of its message.
    pub message: u64,
    /// How long the history was just before it was cast.
    pub at: u64,
}
