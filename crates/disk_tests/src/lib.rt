//! The tests of disks and of what survives on them. They stand in a crate above both, so that neither is proved once
//! more for its tests.
#![tactic(auto)]

#[cfg(test)]
mod disks;
#[cfg(test)]
mod logs;
