//! Appends to a log on a disk in memory, and loads of it, for two numbers of entries; and the calls of the
//! disk that a load makes.

use disk_model::{Calls, Disk, Entries, PlanDisk};
use gate_log::{Log, LogFault};
use std::io;
use std::rt::Clock;
use std::time::Instant;

/// The bytes of an entry.
const ENTRY: [u8; 200] = [7; 200];

/// How many entries are appended.
const COUNTS: [u32; 2] = [10_000, 20_000];

/// Times both for each number of entries.
pub fn run<R: Print + Clock + AllocGlobal>(rt: &R) -> io::Result<()> {
    for count in COUNTS {
        time_log(rt, count)?;
    }
    Ok(())
}

fn time_log<R: Print + Clock + AllocGlobal>(rt: &R, count: u32) -> io::Result<()> {
    let disk = PlanDisk::new(rt.alloc(), Calls::new(rt.alloc()));
    let (mut log, _) = load(rt, disk).map_err(refused)?;
    let start = Instant::now(rt)?;
    append_all(&mut log, count).map_err(refused)?;
    let took = start.elapsed(rt)?.as_nanos();
    println!(rt; "append_{count} {took} {count} {count}")?;
    let disk = log.into_disk();
    let made = disk.calls();
    let start = Instant::now(rt)?;
    let (log, entries) = load(rt, disk).map_err(refused)?;
    let took = start.elapsed(rt)?.as_nanos();
    println!(rt; "load_{count} {took} {count} {}", entries.len())?;
    let calls = log.into_disk().calls().saturating_sub(made);
    println!(rt; "calls_of_load_{count} {calls} 1 {}", entries.len())?;
    println!(rt; "entries_{count} {} 1 0", entries.len())
}

/// The log at the start of this disk.
fn load<R: AllocGlobal, D: Disk + Drop>(rt: &R, disk: D) -> Result<(Log<D>, Entries), LogFault> {
    match Log::load(rt.alloc(), disk, 0) {
        Ok(loaded) => Ok(loaded),
        Err((fault, _disk)) => Err(fault),
    }
}

/// Appends so many entries.
fn append_all<D: Disk>(log: &mut Log<D>, count: u32) -> Result<(), LogFault> {
    for _ in 0..count {
        log.append(&ENTRY)?;
    }
    Ok(())
}

fn refused(_fault: LogFault) -> io::Error {
    io::Error::other("a log was refused")
}
