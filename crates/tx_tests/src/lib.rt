//! The tests of minitransactions, of links and of coordinators. They stand in a crate above all of these, so
//! that none is proved once more for its tests.
#![tactic(auto)]

#[cfg(test)]
mod coordinators;
#[cfg(test)]
mod links;
#[cfg(test)]
mod minis;
