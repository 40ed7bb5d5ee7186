/// What the command finds.
#[derive(Clone, Copy, Debug, PartialEq, Eq)]
pub enum Found {
    /// The transcript is legal for the schedule, and ends.
    Holds,
    /// The line of the transcript with this number is the first that may not stand.
    Fails { line: u64 },
    /// The line of the input with this number is outside its grammar, or is missing in the schedule.
    Refused { line: u64 },
}
