use fs_edits::Plan;

/// What the rules say of a RENAME that is not refused.
#[derive(Clone, Copy, Debug, PartialEq, Eq)]
pub enum Decision {
    /// Both names are those of one file, and nothing changes.
    Same,
    /// The plan is carried out.
    Moves(Plan),
}
