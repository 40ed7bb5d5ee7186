/// How the command came to its end.
#[derive(Clone, Copy, Debug, PartialEq, Eq)]
pub enum Ending {
    /// The listing was written.
    Listed,
    /// The fault of the input was written.
    Refused,
}
