/// What is found of a transcript.
#[derive(Clone, Copy, Debug, PartialEq, Eq)]
pub enum Verdict {
    /// It is legal for the schedule, and ends in `end` or `refused`.
    Holds,
    /// The line with this number is the first that may not stand; one past the end where a line is missing.
    Fails { line: u64 },
}
