//! The tests of the records that lie on memory nodes, of what a node holds of them, of the rules of files, of their content
//! and of a tree's listing. They stand in a crate above all of these, so that none is proved once more for its tests. What
//! each procedure answers is a case of the program (`cases/`).
#![tactic(auto)]

#[cfg(test)]
mod bitmaps;
#[cfg(test)]
mod caches;
#[cfg(test)]
mod chains;
#[cfg(test)]
mod content;
#[cfg(test)]
mod layouts;
#[cfg(test)]
mod listings;
#[cfg(test)]
mod rules;
#[cfg(test)]
mod slots;
