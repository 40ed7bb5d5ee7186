//! Votes of a memory node on a disk in memory: single writes for two numbers of them, and a read of 8 KiB
//! beside a copy of as many bytes.

ghost use Rattle.std.specs.Prelude.{◌≡◌, ◌∷◌, [], IfOk};
ghost use Rattle.sfs_bench.specs.Fixture.{lone, AreFitItems, IsAsked};
ghost use Rattle.mem_node.specs.Node.{setup_of};

use disk_model::{Calls, Disk, PlanDisk};
use mem_node::{MemNode, NodeFault, Setup};
use mini_tx::{
    Actor, Bytes, Geometry4, Item, Message, NoMemory, Numbers, Placed, PlacedItem, TxId, Vote,
};
use std::alloc::Global;
use std::io;
use std::rt::Clock;
use std::time::{Duration, Instant};

/// How often a read is voted on.
const ROUNDS: u32 = 20_000;

/// How many writes are voted on.
const COUNTS: [u32; 2] = [10_000, 20_000];

/// What a write item writes.
const WRITTEN: [u8; 100] = [7; 100];

/// Where it writes: into the block.
const WRITTEN_AT: u32 = 12_288;

/// How many bytes a read item reads.
const READ_BYTES: usize = 8_192;

/// The one memory node of the smallest cluster.
const SETUP: Setup = Setup {
    geometry: Geometry4 {
        nodes: 1,
        memories: 1,
        blocks: 1,
        inodes: 1,
    },
    index: 0,
};

/// Times the writes for each number of them, and the read.
pub fn run<R: Print + Clock + AllocGlobal>(rt: &R) -> io::Result<()> {
    for count in COUNTS {
        time_writes(rt, count)?;
    }
    time_copy(rt)?;
    time_reads(rt)
}

fn time_writes<R: Print + Clock + AllocGlobal>(rt: &R, count: u32) -> io::Result<()> {
    let mut node = loaded(rt.alloc()).map_err(refused)?;
    let start = Instant::now(rt)?;
    vote_on_writes(rt.alloc(), &mut node, count).map_err(refused)?;
    let took = start.elapsed(rt)?;
    println!(rt; "vote_{count} {} {count} {count}", took.as_nanos())
}

fn time_copy<R: Print + Clock + AllocGlobal>(rt: &R) -> io::Result<()> {
    let mut bytes = Vec::from_elem(rt.alloc(), 7, READ_BYTES)?;
    let mut copied = Vec::from_elem(rt.alloc(), 0, READ_BYTES)?;
    let mut sum = 0u64;
    let start = Instant::now(rt)?;
    for round in 0..ROUNDS {
        copy_bytes(&bytes, &mut copied);
        let at = (round % READ_BYTES as u32) as usize;
        if let (Some(from), Some(into)) = (bytes.get_mut(at), copied.get(at)) {
            sum = sum.wrapping_add(u64::from(*into));
            *from = (round % 256) as u8;
        }
    }
    report(rt, "copy_of_read_bytes", start.elapsed(rt)?, sum)
}

fn time_reads<R: Print + Clock + AllocGlobal>(rt: &R) -> io::Result<()> {
    let mut node = loaded(rt.alloc()).map_err(refused)?;
    let message = prepare(rt.alloc(), 1, read_item())
        .map_err(NodeFault::from)
        .map_err(refused)?;
    let start = Instant::now(rt)?;
    let sum = vote_on_reads(&mut node, &message).map_err(refused)?;
    report(rt, "vote_on_a_read", start.elapsed(rt)?, sum)
}

/// The memory node of a disk that was just formatted.
fn loaded(alloc: Global) -> Result<MemNode<PlanDisk>, NodeFault>
    ensures { IfOk result (λ node. setup_of node ≡ lone) }
{
    let mut disk = PlanDisk::new(alloc, Calls::new(alloc));
    MemNode::format(alloc, &mut disk, SETUP)?;
    match MemNode::load(alloc, disk, SETUP) {
        Ok(node) => Ok(node),
        Err((fault, _disk)) => Err(fault),
    }
}

/// Votes on so many writes, each under an identifier of its own.
fn vote_on_writes<D: Disk>(
    alloc: Global,
    node: &mut MemNode<D>,
    count: u32,
) -> Result<(), NodeFault>
    requires { setup_of node.old ≡ lone }
{
    for seq in 0..count {
        let message = prepare(alloc, u64::from(seq) + 1, write_item(alloc)?)?;
        vote(node, &message)?;
    }
    Ok(())
}

/// Votes on a read so many times; the sum of the bytes that were read.
fn vote_on_reads<D: Disk>(node: &mut MemNode<D>, message: &Message) -> Result<u64, NodeFault>
    requires setup { setup_of node.old ≡ lone }
    requires fit { IsAsked message.now }
{
    let mut sum = 0u64;
    for _round in 0..ROUNDS {
        let answer = vote(node, message)?;
        sum = sum.wrapping_add(bytes_read(&answer));
    }
    Ok(sum)
}

/// The answer to a prepare.
fn vote<D: Disk>(node: &mut MemNode<D>, message: &Message) -> Result<Option<Message>, NodeFault>
    requires setup { setup_of node.old ≡ lone }
    requires fit { IsAsked message.now }
    ensures { setup_of node.new ≡ lone }
{
    node.handle(Actor::Node(0), message)
}

/// The prepare of one item.
fn prepare(alloc: Global, seq: u64, item: Item) -> Result<Message, NoMemory>
    requires { AreFitItems (record { place = 0; item = item } ∷ []) }
    ensures { IfOk result IsAsked }
{
    let mut items = Placed::new(alloc);
    items.push(PlacedItem { place: 0, item })?;
    Ok(Message::Prepare {
        id: TxId {
            coord: 0,
            boot: 1,
            seq,
        },
        participants: Numbers::from_slice(alloc, &[0])?,
        items,
    })
}

/// The write item.
fn write_item(alloc: Global) -> Result<Item, NoMemory>
    ensures { IfOk result (λ item. AreFitItems (record { place = 0; item = item } ∷ [])) }
{
    Ok(Item::Write {
        memory: 0,
        at: WRITTEN_AT,
        bytes: Bytes::from_slice(alloc, &WRITTEN)?,
    })
}

/// The read item.
fn read_item() -> Item
    ensures { AreFitItems (record { place = 0; item = result } ∷ []) }
{
    Item::Read {
        memory: 0,
        at: 0,
        length: READ_BYTES as u32,
    }
}

/// How many bytes were read.
fn bytes_read(answer: &Option<Message>) -> u64 {
    match answer {
        Some(
            Message::Voted {
                vote: Vote::Granted(reads),
                ..
            },
        ) => match reads.as_slice().first() {
            Some(bytes) => bytes.len() as u64,
            None => 0,
        },
        _ => 0,
    }
}

// Prints the line of a call.
fn report<R: Print + Clock>(rt: &R, name: &str, took: Duration, sum: u64) -> io::Result<()> {
    println!(rt; "{name} {} {ROUNDS} {sum}", took.as_nanos())
}

fn refused(_fault: NodeFault) -> io::Error {
    io::Error::other("a memory node was refused")
}

#[inline(never)]
fn copy_bytes(from: &[u8], into: &mut [u8]) {
    if from.len() == into.len() {
        into.copy_from_slice(from);
    }
}
