ghost use Rattle.std.specs.Prelude.{◌≡◌, Ok, IfOk};

use node_cache::NoMemory;
use std::alloc::AllocError;
use std::io;
use std::rt::Clock;
use std::time::Instant;

/// Prints the line of a call.
pub fn report<R: Print + Clock>(
    rt: &R,
    name: &str,
    start: Instant,
    rounds: u32,
    sum: u64,
) -> io::Result<()> {
    let took = start.elapsed(rt)?.as_nanos();
    println!(rt; "{name} {took} {rounds} {sum}")
}

/// Memory that was found.
pub fn found<T>(answer: Result<T, NoMemory>) -> io::Result<T>
    ensures { IfOk result (λ value. answer ≡ Ok value) }
{
    match answer {
        Ok(value) => Ok(value),
        Err(NoMemory) => Err(io::Error::from(AllocError)),
    }
}

/// Why nothing is timed any more: a refused call is fast, and says nothing of one that is carried out.
pub fn refused() -> io::Error {
    io::Error::other("a call that is timed was refused")
}
