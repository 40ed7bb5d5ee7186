//! The tests of lists and tables, of what goes over the wire, and of the lines of schedules and transcripts. They stand
//! in a crate above all of these, so that none is proved once more for its tests.
#![tactic(auto)]

#[cfg(test)]
mod calls;
#[cfg(test)]
mod items;
#[cfg(test)]
mod lines;
#[cfg(test)]
mod lists;
#[cfg(test)]
mod mounts;
#[cfg(test)]
mod procedures;
