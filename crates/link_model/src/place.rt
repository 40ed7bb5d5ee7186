use mini_tx::Posted;

/// A message that was posted, and whether it was neither given nor lost yet.
#[derive(Debug, Clone, PartialEq, Eq, Drop)]
pub struct Place {
    pub posted: Posted,
    pub waits: bool,
}
