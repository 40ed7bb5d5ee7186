//! The tests of a memory node. They stand in a crate above it, so that it is not proved once more for its tests.
#![tactic(auto)]

#[cfg(test)]
mod fixture;
#[cfg(test)]
mod nodes;
#[cfg(test)]
mod stops;
