//! The plan of a LOOKUP of the last name of a directory all of whose slots are held, beside one pass over these slots.

ghost use Rattle.std.specs.Prelude.{◌<◌, ◌≤◌, IfOk};
ghost use Rattle.plan_read.specs.Readings.{IsReading};
ghost use Rattle.plan_rules.specs.Works.{IsWorkSet};

use crate::directory::{CLUSTER, MOST_BLOCKS, SLOTS, image_of, name_of};
use crate::report::{found, refused, report};
use fs_rules::{Cred, handle_of};
use nfs_proto::{Call, Stamp};
use node_cache::{Bytes, Entry, Held, NoMemory};
use plan_read::{Plan, plan};
use plan_tests::{Step, empty, run as serve_all};
use std::alloc::Global;
use std::io;
use std::rt::Clock;
use std::time::Instant;

/// How often each call is made.
const ROUNDS: u32 = 2_000;

/// More steps than a call needs.
const STEPS: u32 = 32;

/// Prints a line for each call.
pub fn run<R: Print + Clock + AllocGlobal>(rt: &R) -> io::Result<()> {
    time_directory(rt, "pass_of_half", "lookup_in_half", MOST_BLOCKS / 2)?;
    time_directory(rt, "pass_of_7650", "lookup_in_7650", MOST_BLOCKS)
}

fn time_directory<R: Print + Clock + AllocGlobal>(
    rt: &R,
    pass: &str,
    lookup: &str,
    blocks: u32,
) -> io::Result<()>
    requires some { 0 < blocks }
    requires most { blocks ≤ 510 }
{
    let name = name_of(SLOTS * blocks - 1);
    let call = found(lookup_of(rt.alloc(), &name))?;
    let held = held_of(rt.alloc(), &call, blocks)?;
    time_pass(rt, pass, &held)?;
    time_lookup(rt, lookup, &held, &call)
}

// What is held once the call was served.
fn held_of(alloc: Global, call: &Call, blocks: u32) -> io::Result<Held>
    requires most { blocks ≤ 510 }
    requires call { IsReading call.now }
    ensures { IfOk result IsWorkSet }
{
    let mut held = found(empty(alloc, CLUSTER))?;
    let mut flat = found(image_of(alloc, blocks))?;
    let cred = Cred::nobody(alloc);
    match found(serve_all(alloc, call, &cred, &mut held, &mut flat, STEPS))? {
        Step::Answered(_) => Ok(held),
        _ => Err(refused()),
    }
}

// The LOOKUP of a name in the root.
fn lookup_of(alloc: Global, name: &[u8]) -> Result<Call, NoMemory>
    ensures { IfOk result IsReading }
{
    Ok(Call::Lookup {
        dir: handle_of(1, 1),
        name: Bytes::from_slice(alloc, name)?,
    })
}

fn time_pass<R: Print + Clock>(rt: &R, name: &str, held: &Held) -> io::Result<()> {
    let mut sum = 0u64;
    let start = Instant::now(rt)?;
    for round in 0..ROUNDS {
        sum = sum.wrapping_add(found_in(held, &absent(round)));
    }
    report(rt, name, start, ROUNDS, sum)
}

// A name of four bytes that no slot has: another one in each round, so that none is left out.
fn absent(round: u32) -> [u8; 4] {
    [b'z', b'a', b'a', (round % 16) as u8]
}

// In how many groups a name is found.
#[inline(never)]
fn found_in(held: &Held, wanted: &[u8]) -> u64 {
    let mut sum = 0u64;
    for entry in held.entries.as_slice() {
        sum = sum.wrapping_add(found_in_groups(entry, wanted));
    }
    sum
}

fn found_in_groups(entry: &Entry, wanted: &[u8]) -> u64 {
    let mut sum = 0u64;
    for group in entry.groups.as_slice() {
        if fs_dir::find(&group.slots, wanted).is_some() {
            sum = sum.wrapping_add(1);
        }
    }
    sum
}

fn time_lookup<R: Print + Clock + AllocGlobal>(
    rt: &R,
    name: &str,
    held: &Held,
    call: &Call,
) -> io::Result<()>
    requires work { IsWorkSet held.now }
    requires call { IsReading call.now }
{
    let cred = Cred::nobody(rt.alloc());
    let mut sum = 0u64;
    let start = Instant::now(rt)?;
    for _ in 0..ROUNDS {
        sum = sum.wrapping_add(planned(rt.alloc(), call, &cred, held)?);
    }
    report(rt, name, start, ROUNDS, sum)
}

// How many items the final of a call has.
#[inline(never)]
fn planned(alloc: Global, call: &Call, cred: &Cred, held: &Held) -> io::Result<u64>
    requires work { IsWorkSet held.now }
    requires call { IsReading call.now }
{
    match found(plan(alloc, call, cred, Stamp::ZERO, 0, held))? {
        Plan::Final { mini, .. } => Ok(mini.items().len() as u64),
        Plan::Need(_) => Err(refused()),
    }
}
