//! The tests of a cluster. They stand in a crate above it, so that it is not proved once more for its tests.
#![tactic(auto)]

#[cfg(test)]
mod fixture;
#[cfg(test)]
mod formats;
#[cfg(test)]
mod rows;
