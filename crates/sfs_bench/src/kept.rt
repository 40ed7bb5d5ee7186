//! Votes of a memory node that keeps few records of another coordinator, of one that keeps many, and of one that
//! keeps as many that are decided.

ghost use Rattle.std.specs.Prelude.{◌≡◌, ◌<◌, ◌≤◌, ◌+◌, IfOk};
ghost use Rattle.sfs_bench.specs.Fixture.{pair, IsAskedOfBoth};
ghost use Rattle.mem_node.specs.Node.{setup_of};

use disk_model::{Calls, Disk, PlanDisk};
use mem_node::{MemNode, NodeFault, Setup};
use mini_tx::{
    Actor, Bytes, Geometry4, Item, Message, NoMemory, Numbers, Placed, PlacedItem, TxId, Vote,
};
use std::alloc::Global;
use std::io;
use std::rt::Clock;
use std::time::{Duration, Instant};

/// How often the votes are timed.
const ROUNDS: u32 = 50;

/// How many votes are timed.
const VOTES: u32 = 64;

/// Where the block begins. Each vote is on a write of a byte of it.
const BLOCK_AT: u32 = 12_288;

/// The first memory node of a cluster of two.
const SETUP: Setup = Setup {
    geometry: Geometry4 {
        nodes: 2,
        memories: 2,
        blocks: 1,
        inodes: 1,
    },
    index: 0,
};

/// Where the bytes of the records lie that are kept before the votes.
const OTHERS_AT: u32 = BLOCK_AT + 1_000;

/// Where those of the votes lie that come behind them.
const BEHIND_AT: u32 = BLOCK_AT + 2_100;

/// How many more records are kept, so that no list of them grows to the next power of two while votes are timed.
const MORE: u32 = 30;

/// Where the votes stand to the records that are kept: by their identifiers and by their bytes.
#[derive(Clone, Copy, Debug)]
enum Order {
    /// Behind all of them.
    Behind,
    /// Behind all of them, on the bytes that they have written.
    Again,
    /// In front of all of them.
    InFront,
}

/// Times the votes behind few records, behind many, behind many that are decided, and in front of many.
pub fn run<R: Print + Clock + AllocGlobal>(rt: &R) -> io::Result<()> {
    time_votes(rt, "votes_beside_10", 10, Order::Behind)?;
    time_votes(rt, "votes_beside_1000", 1_000, Order::Behind)?;
    time_votes(rt, "votes_beside_1000_decided", 1_000, Order::Again)?;
    time_votes(rt, "votes_in_front_of_1000", 1_000, Order::InFront)
}

// The records are of one coordinator and the votes of the other. Those that are voted on again are decided.
fn time_votes<R: Print + Clock + AllocGlobal>(
    rt: &R,
    name: &str,
    count: u32,
    order: Order,
) -> io::Result<()>
    requires { count ≤ 1000 }
{
    let mut took = Duration::ZERO;
    let mut sum = 0u64;
    let (coord, at) = match order {
        Order::Behind => (1, BEHIND_AT),
        Order::Again => (1, OTHERS_AT),
        Order::InFront => (0, BLOCK_AT),
    };
    let decided = matches!(order, Order::Again);
    for _round in 0..ROUNDS {
        let mut node = keeping(rt.alloc(), 1 - coord, count + MORE, decided).map_err(refused)?;
        let start = Instant::now(rt)?;
        let granted = vote_on_bytes(rt.alloc(), &mut node, coord, at, VOTES).map_err(refused)?;
        took = took.saturating_add(start.elapsed(rt)?);
        sum = sum.wrapping_add(granted);
    }
    println!(rt; "{name} {} {ROUNDS} {sum}", took.as_nanos())
}

/// The memory node of a disk that was just formatted, with so many records.
fn keeping(
    alloc: Global,
    coord: u32,
    count: u32,
    decided: bool,
) -> Result<MemNode<PlanDisk>, NodeFault>
    requires coord { coord < 2 }
    requires count { count ≤ 1030 }
    ensures { IfOk result (λ node. setup_of node ≡ pair) }
{
    let mut node = loaded(alloc)?;
    vote_on_bytes(alloc, &mut node, coord, OTHERS_AT, count)?;
    if decided {
        commit_all(&mut node, coord, count)?;
    }
    Ok(node)
}

/// The memory node of a disk that was just formatted.
fn loaded(alloc: Global) -> Result<MemNode<PlanDisk>, NodeFault>
    ensures { IfOk result (λ node. setup_of node ≡ pair) }
{
    let mut disk = PlanDisk::new(alloc, Calls::new(alloc));
    MemNode::format(alloc, &mut disk, SETUP)?;
    match MemNode::load(alloc, disk, SETUP) {
        Ok(node) => Ok(node),
        Err((fault, _disk)) => Err(fault),
    }
}

/// Votes on writes of so many bytes from a place on, each under an identifier of its own of this coordinator:
/// how many are granted.
fn vote_on_bytes<D: Disk>(
    alloc: Global,
    node: &mut MemNode<D>,
    coord: u32,
    first: u32,
    count: u32,
) -> Result<u64, NodeFault>
    requires setup { setup_of node.old ≡ pair }
    requires coord { coord < 2 }
    requires inside { first + count ≤ 16384 }
    ensures { setup_of node.new ≡ pair }
{
    let mut granted = 0u64;
    for index in 0..count {
        let message = prepare(alloc, id_of(coord, index), first + index)?;
        let answer = node.handle(Actor::Node(coord), &message)?;
        granted = granted.wrapping_add(u64::from(is_granted(&answer)));
    }
    Ok(granted)
}

/// Commits the first of this coordinator's identifiers.
fn commit_all<D: Disk>(node: &mut MemNode<D>, coord: u32, count: u32) -> Result<(), NodeFault>
    requires setup { setup_of node.old ≡ pair }
    requires coord { coord < 2 }
    ensures { setup_of node.new ≡ pair }
{
    for index in 0..count {
        let id = id_of(coord, index);
        node.handle(Actor::Manager, &Message::Decide { id, commit: true })?;
    }
    Ok(())
}

fn id_of(coord: u32, index: u32) -> TxId
    ensures { result.coord ≡ coord }
{
    TxId {
        coord,
        boot: 1,
        seq: u64::from(index) + 1,
    }
}

/// The prepare of both memory nodes that writes a byte here.
fn prepare(alloc: Global, id: TxId, at: u32) -> Result<Message, NoMemory>
    requires coord { id.coord < 2 }
    requires inside { at < 16384 }
    ensures { IfOk result IsAskedOfBoth }
{
    let mut items = Placed::new(alloc);
    items.push(PlacedItem {
        place: 0,
        item: Item::Write {
            memory: 0,
            at,
            bytes: Bytes::from_slice(alloc, &[7])?,
        },
    })?;
    Ok(Message::Prepare {
        id,
        participants: Numbers::from_slice(alloc, &[0, 1])?,
        items,
    })
}

fn is_granted(answer: &Option<Message>) -> bool {
    matches!(
        answer,
        Some(Message::Voted {
            vote: Vote::Granted(_),
            ..
        })
    )
}

fn refused(_fault: NodeFault) -> io::Error {
    io::Error::other("a memory node was refused")
}
