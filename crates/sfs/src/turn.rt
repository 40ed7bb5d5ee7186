/// What one turn of a replay did.
#[derive(Clone, Copy, Debug, PartialEq, Eq)]
pub enum Turn {
    /// An event was handled, and its lines are written.
    On,
    /// The next event ends the schedule.
    Ended,
    /// The next line is missing, outside the grammar or excluded.
    Refused,
}
