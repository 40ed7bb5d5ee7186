//! Searches in a bitmap, and reading and writing a chaining block, beside copies of the bytes that these
//! calls look at. Each round changes a byte, so that no round can stand for another.

use crate::refused::refused;
use fs_bitmap::{count_free, lowest_free};
use fs_chain::{BLOCK_BYTES, ChainBlock, REFERENCES_PER_CHAIN, Reference, read_chain, write_chain};
use std::io;
use std::rt::Clock;
use std::time::Instant;

/// How often each call is made.
const ROUNDS: u32 = 100_000;

/// The bits of a bitmap of which all are used.
const BITS: u32 = 16_384;

/// The bytes of that bitmap.
const MAP_BYTES: usize = 2_048;

/// A byte of that bitmap.
const USED: u8 = 0xff;

/// Times each call.
pub fn run<R: Print + Clock + AllocGlobal>(rt: &R) -> io::Result<()> {
    time_copy_of_a_bitmap(rt)?;
    time_lowest_free(rt)?;
    time_count_free(rt)?;
    time_copy_of_a_block(rt)?;
    time_owned_copy_of_a_block(rt)?;
    time_read_chain(rt)?;
    time_write_chain(rt)
}

fn time_copy_of_a_bitmap<R: Print + Clock>(rt: &R) -> io::Result<()> {
    let mut map = [USED; MAP_BYTES];
    let mut copied = [0; MAP_BYTES];
    let mut sum = 0u64;
    let start = Instant::now(rt)?;
    for round in 0..ROUNDS {
        copy_map(&map, &mut copied);
        sum = sum.wrapping_add(u64::from(copied[(round % 2_048) as usize]));
        map[(round % 2_048) as usize] = USED;
    }
    report(rt, "copy_of_a_bitmap", start, sum)
}

fn time_lowest_free<R: Print + Clock>(rt: &R) -> io::Result<()> {
    let mut map = [USED; MAP_BYTES];
    let mut sum = 0u64;
    let start = Instant::now(rt)?;
    for round in 0..ROUNDS {
        sum = sum.wrapping_add(u64::from(search(&map).unwrap_or(round)));
        map[(round % 2_048) as usize] = USED;
    }
    report(rt, "lowest_free", start, sum)
}

fn time_count_free<R: Print + Clock>(rt: &R) -> io::Result<()> {
    let mut map = [USED; MAP_BYTES];
    let mut sum = 0u64;
    let start = Instant::now(rt)?;
    for round in 0..ROUNDS {
        sum = sum.wrapping_add(u64::from(count(&map)));
        map[(round % 2_048) as usize] = USED;
    }
    report(rt, "count_free", start, sum)
}

fn time_copy_of_a_block<R: Print + Clock>(rt: &R) -> io::Result<()> {
    let mut block = used_chain();
    let mut copied = [0; BLOCK_BYTES];
    let mut sum = 0u64;
    let start = Instant::now(rt)?;
    for round in 0..ROUNDS {
        copy_block(&block, &mut copied);
        sum = sum.wrapping_add(u64::from(copied[(round % 4_096) as usize]));
        change(&mut block, round);
    }
    report(rt, "copy_of_a_block", start, sum)
}

fn time_owned_copy_of_a_block<R: Print + Clock + AllocGlobal>(rt: &R) -> io::Result<()> {
    let mut block = used_chain();
    let mut sum = 0u64;
    let start = Instant::now(rt)?;
    for round in 0..ROUNDS {
        let copied = Vec::from_slice(rt.alloc(), &block)?;
        sum = sum.wrapping_add(copied.first().map_or(0, |byte| u64::from(*byte)));
        change(&mut block, round);
    }
    report(rt, "owned_copy_of_a_block", start, sum)
}

fn time_read_chain<R: Print + Clock>(rt: &R) -> io::Result<()> {
    let mut block = used_chain();
    let mut sum = 0u64;
    let start = Instant::now(rt)?;
    for round in 0..ROUNDS {
        sum = sum.wrapping_add(read(&block, round).ok_or_else(refused)?);
        change(&mut block, round);
    }
    report(rt, "read_chain", start, sum)
}

fn time_write_chain<R: Print + Clock>(rt: &R) -> io::Result<()> {
    let mut block = used_chain();
    let mut sum = 0u64;
    let mut chain = read_chain(&block).ok_or_else(refused)?;
    let start = Instant::now(rt)?;
    for round in 0..ROUNDS {
        chain.file = round;
        write(&chain, &mut block)?;
        sum = sum.wrapping_add(u64::from(block[(round % 4_096) as usize]));
    }
    report(rt, "write_chain", start, sum)
}

// Prints the line of a call.
fn report<R: Print + Clock>(rt: &R, name: &str, start: Instant, sum: u64) -> io::Result<()> {
    let took = start.elapsed(rt)?.as_nanos();
    println!(rt; "{name} {took} {ROUNDS} {sum}")
}

// The bytes of a chaining block all of whose references are used.
fn used_chain() -> [u8; BLOCK_BYTES] {
    let mut block = [0; BLOCK_BYTES];
    for at in 0..BLOCK_BYTES {
        block[at] = u8::from(at % 4 == 3);
    }
    block
}

// Gives a memory node in a chaining block another number.
fn change(block: &mut [u8; BLOCK_BYTES], round: u32) {
    block[19 + 8 * (round % 500) as usize] = (1 + round % 7) as u8;
}

#[inline(never)]
fn copy_map(from: &[u8; MAP_BYTES], into: &mut [u8; MAP_BYTES]) {
    into.copy_from_slice(from);
}

#[inline(never)]
fn search(map: &[u8; MAP_BYTES]) -> Option<u32> {
    lowest_free(map, BITS)
}

#[inline(never)]
fn count(map: &[u8; MAP_BYTES]) -> u32 {
    count_free(map, BITS)
}

#[inline(never)]
fn copy_block(from: &[u8; BLOCK_BYTES], into: &mut [u8; BLOCK_BYTES]) {
    into.copy_from_slice(from);
}

// The whole block is read, and lies where it is looked at.
#[inline(never)]
fn read(block: &[u8; BLOCK_BYTES], round: u32) -> Option<u64> {
    match read_chain(block) {
        Some(chain) => Some(looked_at(&chain, round)),
        None => None,
    }
}

#[inline(never)]
fn looked_at(chain: &ChainBlock, round: u32) -> u64 {
    let index = round as usize % REFERENCES_PER_CHAIN;
    match chain.references.get(index) {
        Some(Reference { memory, .. }) => u64::from(memory),
        None => u64::from(chain.file),
    }
}

// With the test that it can be written.
#[inline(never)]
fn write(chain: &ChainBlock, block: &mut [u8; BLOCK_BYTES]) -> io::Result<()> {
    if !chain.is_chain() {
        return Err(refused());
    }
    write_chain(chain, block);
    Ok(())
}
