//! The tests of the command `tree` over streams in memory: a fresh image made by hand, one fault of each stream. What
//! it answers to many inputs is a case of the program (`cases/images`).
#![tactic(auto)]

#[cfg(test)]
mod streams;
