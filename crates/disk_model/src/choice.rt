/// Which of the images that a crash may leave a restart takes.
#[derive(Clone, Copy, Debug, PartialEq, Eq)]
pub enum Choice {
    /// No byte that was written since the last sync is there.
    Old,
    /// Each of them is there.
    New,
    /// Each place that was written since the last sync has this byte.
    Fill(u8),
}
