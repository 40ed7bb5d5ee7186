//! Times calls of the libraries. The first word names the topic, and each call gets a line with its name,
//! the nanoseconds that all rounds took, the number of rounds, and a sum that keeps them from being left
//! out. A call that is refused, or a word that is no topic, ends it with a fault. Without a word it is silent.
//!
//! - [`blocks`]: the records on the blocks of a memory node.
//! - [`kept`]: votes of a memory node that keeps few records, and many.
//! - [`log_calls`]: appends to a log on a disk in memory, and loads of it.
//! - [`minis`]: minitransactions of the most items.
//! - [`vote`]: votes of a memory node, on writes and on a read of 8 KiB.
//! - [`wire`]: messages with 8 KiB of data.
#![tactic(auto)]

mod blocks;
mod kept;
mod log_calls;
mod minis;
mod refused;
mod vote;
mod wire;

use std::{env, io};

fn main(rt: HostRuntime) -> io::Result<()> {
    let mut words = env::args(&rt)?.skip(1);
    match words.next() {
        Some(word) if word.as_str() == "blocks" => blocks::run(&rt),
        Some(word) if word.as_str() == "kept" => kept::run(&rt),
        Some(word) if word.as_str() == "log" => log_calls::run(&rt),
        Some(word) if word.as_str() == "minis" => minis::run(&rt),
        Some(word) if word.as_str() == "vote" => vote::run(&rt),
        Some(word) if word.as_str() == "wire" => wire::run(&rt),
        Some(_) => Err(io::Error::other("there is no such topic")),
        None => Ok(()),
    }
}
