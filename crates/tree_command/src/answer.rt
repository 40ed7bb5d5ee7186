use crate::input_fault::InputFault;
use fs_rules::PlainTree;

/// What an input of `tree` says.
#[derive(Debug, Drop)]
pub enum Answer {
    /// The images stand for this tree.
    Listed(PlainTree),
    /// It is out of form, or its images stand for no tree.
    Faulty(InputFault),
}
