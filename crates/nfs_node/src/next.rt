use node_rules::{Output, Work};

/// What is next for the arrival that ran.
#[derive(Debug, Drop)]
pub enum Next {
    /// It goes on.
    GoesOn(Work),
    /// It ends, and this is told.
    Ends(Output),
}
