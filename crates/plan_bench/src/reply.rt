//! The reply to a READ of 8 KiB in two blocks, made of what its final read, beside a copy of these bytes.

ghost use Rattle.std.specs.Prelude.{◌≤◌, length};

use crate::report::{found, refused, report};
use mini_tx::Reads;
use nfs_proto::{Answer, Fattr, Stamp};
use nfs_service::reply_to;
use node_cache::{Bytes, NoMemory};
use plan_forms::{AnswerForm, Piece, Pieces};
use std::alloc::Global;
use std::io;
use std::rt::Clock;
use std::time::Instant;

/// How often each call is made.
const ROUNDS: u32 = 20_000;

/// The bytes of a block.
const BLOCK_BYTES: usize = 4_096;

/// The bytes of two blocks.
const DATA_BYTES: usize = 8_192;

/// What stands in a block.
const BLOCK: [u8; BLOCK_BYTES] = [7; BLOCK_BYTES];

/// What is told of the file that is read.
const ATTR: Fattr = Fattr {
    kind: 1,
    mode: 0o100_644,
    links: 1,
    uid: 0,
    gid: 0,
    size: 8_192,
    block_size: 4_096,
    rdev: 0,
    blocks: 16,
    fsid: 1,
    fileid: 2,
    atime: Stamp::ZERO,
    mtime: Stamp::ZERO,
    ctime: Stamp::ZERO,
};

/// Prints a line for each call.
pub fn run<R: Print + Clock + AllocGlobal>(rt: &R) -> io::Result<()> {
    time_copy(rt)?;
    time_owned_copy(rt)?;
    let reads = found(two_blocks(rt.alloc()))?;
    time_answer(rt, &reads)?;
    time_reply(rt, &reads)
}

fn time_copy<R: Print + Clock>(rt: &R) -> io::Result<()> {
    let mut into = [0; DATA_BYTES];
    let mut from = [7; DATA_BYTES];
    let mut sum = 0u64;
    let start = Instant::now(rt)?;
    for round in 0..ROUNDS {
        copy(&from, &mut into);
        from[(round % 8_192) as usize] = into[(round % 4_096) as usize];
        sum = sum.wrapping_add(u64::from(into[(round % 8_192) as usize]));
    }
    report(rt, "copy_of_two_blocks", start, ROUNDS, sum)
}

fn time_owned_copy<R: Print + Clock + AllocGlobal>(rt: &R) -> io::Result<()> {
    let mut from = [7; DATA_BYTES];
    let mut sum = 0u64;
    let start = Instant::now(rt)?;
    for round in 0..ROUNDS {
        let copied = Vec::from_slice(rt.alloc(), &from)?;
        from[(round % 8_192) as usize] = (round % 7) as u8;
        sum = sum.wrapping_add(copied.first().map_or(0, |byte| u64::from(*byte)));
    }
    report(rt, "owned_copy_of_two_blocks", start, ROUNDS, sum)
}

fn time_answer<R: Print + Clock + AllocGlobal>(rt: &R, reads: &Reads) -> io::Result<()> {
    let mut sum = 0u64;
    let start = Instant::now(rt)?;
    for _ in 0..ROUNDS {
        let answer = answer_of(rt.alloc(), reads)?;
        sum = sum.wrapping_add(bytes_in(&answer));
    }
    report(rt, "answer_of_two_blocks", start, ROUNDS, sum)
}

fn time_reply<R: Print + Clock + AllocGlobal>(rt: &R, reads: &Reads) -> io::Result<()> {
    let mut sum = 0u64;
    let start = Instant::now(rt)?;
    for _ in 0..ROUNDS {
        let reply = reply_of(rt.alloc(), reads)?;
        sum = sum.wrapping_add(reply.len() as u64);
    }
    report(rt, "reply_of_two_blocks", start, ROUNDS, sum)
}

// The answer to a READ whose final read these bytes.
#[inline(never)]
fn answer_of(alloc: Global, reads: &Reads) -> io::Result<Answer> {
    let form = AnswerForm::Part {
        attr: ATTR,
        pieces: found(two_pieces(alloc))?,
    };
    found(form.finish(alloc, reads))
}

// How many bytes of the file it has.
fn bytes_in(answer: &Answer) -> u64 {
    match answer {
        Answer::Part { bytes, .. } => bytes.len() as u64,
        _ => 0,
    }
}

// The reply to that READ.
#[inline(never)]
fn reply_of(alloc: Global, reads: &Reads) -> io::Result<Bytes> {
    match answer_of(alloc, reads)? {
        Answer::Part { attr, bytes } => spelled(alloc, attr, bytes),
        _ => Err(refused()),
    }
}

// The reply with these bytes of the file.
fn spelled(alloc: Global, attr: Fattr, bytes: Bytes) -> io::Result<Bytes> {
    if bytes.len() > DATA_BYTES {
        return Err(refused());
    }
    found(reply_to(alloc, 1, &Answer::Part { attr, bytes }))
}

// The pieces of bytes that are read from two blocks.
fn two_pieces(alloc: Global) -> Result<Pieces, NoMemory> {
    let mut pieces = Pieces::new(alloc);
    pieces.push(Piece::Read)?;
    pieces.push(Piece::Read)?;
    Ok(pieces)
}

fn two_blocks(alloc: Global) -> Result<Reads, NoMemory> {
    let mut reads = Reads::new(alloc);
    reads.push(Bytes::from_slice(alloc, &BLOCK)?)?;
    reads.push(Bytes::from_slice(alloc, &BLOCK)?)?;
    Ok(reads)
}

#[inline(never)]
fn copy(from: &[u8; DATA_BYTES], into: &mut [u8; DATA_BYTES]) {
    into.copy_from_slice(from);
}
