use crate::replaced::Replaced;

/// What a RENAME changes, by numbers.
#[derive(Clone, Copy, Debug, PartialEq, Eq)]
pub struct Plan {
    /// The directory that the file leaves.
    pub from: u32,
    /// The directory that it enters.
    pub to: u32,
    /// The file that is moved.
    pub source: u32,
    /// The links that it takes along into another directory: one where it is a directory itself.
    pub along: u32,
    /// The links that the directory `to` has afterwards.
    pub links: u32,
    /// What becomes of the file that had the second name.
    pub replaced: Replaced,
}
