//! Reading and writing messages that carry 8 KiB of data, beside a copy of that data.

ghost use Rattle.std.specs.Prelude.{◌≡◌, Ok, IfOk};

use crate::refused::refused;
use nfs_proto::{Answer, Call, Fattr, Handle, Stamp, read_args, write_answer, write_args};
use rpc_msg::{Bytes, Cred, Heard, NFS, NoMemory, RpcCall, read_call, write_call};
use std::alloc::{AllocError, Global};
use std::io;
use std::rt::Clock;
use std::time::Instant;

/// How often each call is made.
const ROUNDS: u32 = 20_000;

/// The most bytes that one call carries.
const DATA_BYTES: usize = 8_192;

/// The procedure WRITE.
const WRITE: u32 = 8;

/// What is told of the file that a READ reads.
const ATTR: Fattr = Fattr {
    kind: 1,
    mode: 0o100_644,
    links: 1,
    uid: 0,
    gid: 0,
    size: 8_192,
    block_size: 4_096,
    rdev: 0,
    blocks: 16,
    fsid: 1,
    fileid: 2,
    atime: Stamp::ZERO,
    mtime: Stamp::ZERO,
    ctime: Stamp::ZERO,
};

/// What stands in the data.
const DATA: [u8; DATA_BYTES] = [7; DATA_BYTES];

/// Prints a line for each call: its name, the nanoseconds that all rounds of it took, the rounds, and a
/// sum of what it gave.
pub fn run<R: Print + Clock + AllocGlobal>(rt: &R) -> io::Result<()> {
    time_copy(rt)?;
    let args = arguments(rt.alloc())?;
    time_read_args(rt, &args)?;
    let message = message(rt.alloc(), &args)?;
    time_read_call(rt, &message)?;
    time_write_call(rt)?;
    time_write_answer(rt)
}

// The arguments of a WRITE.
fn arguments(alloc: Global) -> io::Result<Vec<u8>> {
    let call = Call::Write {
        file: Handle([0; 32]),
        begin: 0,
        offset: 0,
        total: 0,
        bytes: found(Bytes::from_slice(alloc, &DATA))?,
    };
    found(write_args(alloc, &call))
}

// A call of WRITE with these arguments.
fn message(alloc: Global, args: &[u8]) -> io::Result<Vec<u8>> {
    let call = RpcCall {
        xid: 1,
        program: NFS,
        procedure: WRITE,
        cred: Cred::nobody(alloc),
        args: found(Bytes::from_slice(alloc, args))?,
    };
    found(write_call(alloc, &call))
}

// Memory that was found.
fn found<T>(answer: Result<T, NoMemory>) -> io::Result<T>
    ensures { IfOk result (λ value. answer ≡ Ok value) }
{
    match answer {
        Ok(value) => Ok(value),
        Err(NoMemory) => Err(io::Error::from(AllocError)),
    }
}

fn time_copy<R: Print + Clock>(rt: &R) -> io::Result<()> {
    let mut into = [0; DATA_BYTES];
    let mut from = DATA;
    let mut sum = 0u64;
    let start = Instant::now(rt)?;
    for round in 0..ROUNDS {
        copy(&from, &mut into);
        from[(round % 8_192) as usize] = into[(round % 4_096) as usize];
        sum = sum.wrapping_add(u64::from(into[(round % 8_192) as usize]));
    }
    report(rt, "copy_of_data", start, sum)
}

fn time_read_args<R: Print + Clock + AllocGlobal>(rt: &R, args: &[u8]) -> io::Result<()> {
    let mut sum = 0u64;
    let start = Instant::now(rt)?;
    for _ in 0..ROUNDS {
        match read_args(rt.alloc(), WRITE, args) {
            Ok(Call::Write { bytes, .. }) => sum = sum.wrapping_add(bytes.len() as u64),
            _ => return Err(refused()),
        }
    }
    report(rt, "read_args", start, sum)
}

fn time_read_call<R: Print + Clock + AllocGlobal>(rt: &R, bytes: &[u8]) -> io::Result<()> {
    let mut sum = 0u64;
    let start = Instant::now(rt)?;
    for _ in 0..ROUNDS {
        match read_call(rt.alloc(), bytes) {
            Ok(Heard::Call(call)) => sum = sum.wrapping_add(call.args.len() as u64),
            _ => return Err(refused()),
        }
    }
    report(rt, "read_call", start, sum)
}

fn time_write_call<R: Print + Clock + AllocGlobal>(rt: &R) -> io::Result<()> {
    let call = RpcCall {
        xid: 1,
        program: NFS,
        procedure: WRITE,
        cred: Cred::nobody(rt.alloc()),
        args: found(Bytes::from_slice(rt.alloc(), &DATA))?,
    };
    let mut sum = 0u64;
    let start = Instant::now(rt)?;
    for _ in 0..ROUNDS {
        match write_call(rt.alloc(), &call) {
            Ok(bytes) => sum = sum.wrapping_add(bytes.len() as u64),
            _ => return Err(refused()),
        }
    }
    report(rt, "write_call", start, sum)
}

fn time_write_answer<R: Print + Clock + AllocGlobal>(rt: &R) -> io::Result<()> {
    let answer = Answer::Part {
        attr: ATTR,
        bytes: found(Bytes::from_slice(rt.alloc(), &DATA))?,
    };
    let mut sum = 0u64;
    let start = Instant::now(rt)?;
    for _ in 0..ROUNDS {
        match write_answer(rt.alloc(), &answer) {
            Ok(bytes) => sum = sum.wrapping_add(bytes.len() as u64),
            _ => return Err(refused()),
        }
    }
    report(rt, "write_answer", start, sum)
}

// Prints one line.
fn report<R: Print + Clock>(rt: &R, name: &str, start: Instant, sum: u64) -> io::Result<()> {
    let took = start.elapsed(rt)?.as_nanos();
    println!(rt; "{name} {took} {ROUNDS} {sum}")
}

#[inline(never)]
fn copy(from: &[u8; DATA_BYTES], into: &mut [u8; DATA_BYTES]) {
    into.copy_from_slice(from);
}
