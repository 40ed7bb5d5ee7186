/// What becomes of the file that had the second name of a RENAME.
#[derive(Clone, Copy, Debug, PartialEq, Eq)]
pub enum Replaced {
    /// No file had it.
    Nothing,
    /// The file with this number has other names, and loses a link.
    LosesLink(u32),
    /// The file with this number is freed: it is a directory, or has no other name.
    IsFreed(u32),
}
