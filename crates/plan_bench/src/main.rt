//! Times what a node does with plans, beside what it cannot do without. The first word names the topic, and each call gets a
//! line with its name, the nanoseconds that all rounds took, the number of rounds, and a sum that keeps them from being left
//! out. A call that is refused, or a word that is no topic, ends it with a fault. Without a word it is silent.
//!
//! - [`cache`]: entries taken out of a cache and put back.
//! - [`lookup`]: the plan of a LOOKUP in a directory, and one pass over its slots.
//! - [`reply`]: the reply to a READ of 8 KiB, from what its final read.
#![tactic(auto)]

mod cache;
mod directory;
mod lookup;
mod reply;
mod report;

use std::{env, io};

fn main(rt: HostRuntime) -> io::Result<()> {
    let mut words = env::args(&rt)?.skip(1);
    match words.next() {
        Some(word) if word.as_str() == "cache" => cache::run(&rt),
        Some(word) if word.as_str() == "lookup" => lookup::run(&rt),
        Some(word) if word.as_str() == "reply" => reply::run(&rt),
        Some(_) => Err(io::Error::other("there is no such topic")),
        None => Ok(()),
    }
}
