/// What the ranges that a memory node wrote since its last sync hold after a crash.
#[derive(Clone, Copy, Debug, PartialEq, Eq)]
pub enum StartChoice {
    /// The former bytes.
    Old,
    /// The written bytes.
    New,
    /// This byte throughout.
    Fill(u8),
}
