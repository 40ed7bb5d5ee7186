/// How a replay came to its end.
#[derive(Clone, Copy, Debug, PartialEq, Eq)]
pub enum Ending {
    /// The schedule was read to `end`.
    Ended,
    /// A line of the schedule was refused.
    Refused,
}
