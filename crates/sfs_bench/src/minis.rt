//! Making a minitransaction of the most items and bytes that there may be, beside a copy of as many bytes.

use crate::refused::refused;
use mini_tx::{Bytes, Item, Items, MAX_ITEM_BYTES, MAX_ITEMS, Mini};
use std::io;
use std::rt::Clock;
use std::time::{Duration, Instant};

/// How often each call is made.
const ROUNDS: u32 = 200;

/// The memory nodes of the cluster.
const MEMORIES: u32 = 8;

/// The bytes of each item.
const ITEM_BYTES: usize = MAX_ITEM_BYTES / MAX_ITEMS;

/// How far apart the items of a memory node begin.
const STEP: u32 = 4_096;

/// Times each call.
pub fn run<R: Print + Clock + AllocGlobal>(rt: &R) -> io::Result<()> {
    time_copy_of_all_bytes(rt)?;
    time_mini_new(rt)
}

fn time_copy_of_all_bytes<R: Print + Clock + AllocGlobal>(rt: &R) -> io::Result<()> {
    let mut bytes = Vec::from_elem(rt.alloc(), 7, MAX_ITEM_BYTES)?;
    let mut copied = Vec::from_elem(rt.alloc(), 0, MAX_ITEM_BYTES)?;
    let mut sum = 0u64;
    let start = Instant::now(rt)?;
    for round in 0..ROUNDS {
        copy_bytes(&bytes, &mut copied);
        let at = (round % 4_096) as usize;
        if let Some(byte) = copied.get(at) {
            sum = sum.wrapping_add(u64::from(*byte));
        }
        if let Some(byte) = bytes.get_mut(at) {
            *byte = (round % 256) as u8;
        }
    }
    report(rt, "copy_of_all_bytes", start.elapsed(rt)?, sum)
}

fn time_mini_new<R: Print + Clock + AllocGlobal>(rt: &R) -> io::Result<()> {
    let mut took = Duration::ZERO;
    let mut sum = 0u64;
    for round in 0..ROUNDS {
        let items = items_of(rt, round)?;
        let start = Instant::now(rt)?;
        let mini = Mini::new(rt.alloc(), items, MEMORIES, u32::MAX);
        took = took.saturating_add(start.elapsed(rt)?);
        match mini {
            Ok(mini) => sum = sum.wrapping_add(mini.participants().len() as u64),
            Err(_) => return Err(refused()),
        }
    }
    report(rt, "mini_new", took, sum)
}

// The most write items of the most bytes, all of one memory node, so that each is held against each; none
// overlap.
fn items_of<R: AllocGlobal>(rt: &R, round: u32) -> io::Result<Items> {
    let mut items = Vec::with_capacity(rt.alloc(), MAX_ITEMS)?;
    for index in 0..MAX_ITEMS as u32 {
        let bytes = Bytes::from(Vec::from_elem(rt.alloc(), 7, ITEM_BYTES)?);
        items.push(Item::Write {
            memory: 0,
            at: round.wrapping_add(index * STEP),
            bytes,
        })?;
    }
    Ok(Items::from(items))
}

// Prints the line of a call.
fn report<R: Print + Clock>(rt: &R, name: &str, took: Duration, sum: u64) -> io::Result<()> {
    println!(rt; "{name} {} {ROUNDS} {sum}", took.as_nanos())
}

#[inline(never)]
fn copy_bytes(from: &[u8], into: &mut [u8]) {
    if from.len() == into.len() {
        into.copy_from_slice(from);
    }
}
