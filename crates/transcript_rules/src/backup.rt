/// A backup.
#[derive(Clone, Copy, Debug, PartialEq, Eq)]
pub struct Backup {
    /// How many changes its cut has, once it was cut.
    pub cut: Option<u64>,
    pub done: bool,
    /// It is done, or ended before.
    pub over: bool,
}
