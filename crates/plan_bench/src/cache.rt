//! An entry that is taken out of a cache and put back, where there are two entries, and where there are 64.

ghost use Rattle.std.specs.Prelude.{◌<◌};

use crate::report::{found, refused, report};
use fs_layout::Attrs;
use node_cache::{Cache, Chains, Entry, Groups};
use std::alloc::Global;
use std::io;
use std::rt::Clock;
use std::time::Instant;

/// How often each call is made.
const ROUNDS: u32 = 20_000;

/// Prints a line for each call.
pub fn run<R: Print + Clock + AllocGlobal>(rt: &R) -> io::Result<()> {
    time_cache(rt, "cache_of_2", 2)?;
    time_cache(rt, "cache_of_64", 64)
}

fn time_cache<R: Print + Clock + AllocGlobal>(rt: &R, name: &str, files: u32) -> io::Result<()>
    requires { 0 < files }
{
    let mut cache = filled(rt.alloc(), files)?;
    let mut sum = 0u64;
    let start = Instant::now(rt)?;
    for round in 0..ROUNDS {
        turn(&mut cache, round % files)?;
        sum = sum.wrapping_add(cache.len() as u64);
    }
    report(rt, name, start, ROUNDS, sum)
}

// A cache with the entries of so many files.
fn filled(alloc: Global, files: u32) -> io::Result<Cache> {
    let mut cache = found(Cache::new(alloc))?;
    for number in 0..files {
        found(cache.put(entry_of(alloc, number)))?;
    }
    Ok(cache)
}

// The entry of a file, whose record is free.
fn entry_of(alloc: Global, number: u32) -> Entry {
    Entry {
        number,
        attrs: Attrs::free(1, 1),
        chains: Chains::new(alloc),
        groups: Groups::new(alloc),
    }
}

// Takes the entry of a file out, and puts it back.
#[inline(never)]
fn turn(cache: &mut Cache, number: u32) -> io::Result<()> {
    match cache.get(number) {
        Some(entry) => {
            found(cache.put(entry))?;
            Ok(())
        }
        None => Err(refused()),
    }
}
