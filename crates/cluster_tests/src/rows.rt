//! Two phases, call by call.
ghost use Rattle.std.specs.Prelude.{◌≡◌, ◌<◌, [], None, IfOk, OnOk};
ghost use Rattle.mini_tx.specs.Minitransactions.{refusal};
ghost use Rattle.cluster_tests.specs.Fixture.{IsReady};

use crate::fixture::{BLOCK_AT, RowFault, begin, deliver, formatted, is_at, mini_of};
use disk_model::PlanDisk;
use link_model::{Link, LocalLink, SimLink};
use mini_tx::{Actor, Bytes, Item, Items, Message, Mini, Posted, Reads, TxId, Vote};
use sinfonia::{Cluster, Outcome, TxState};
use std::alloc::Global;
use std::test::*;

/// What node 0 begins: a byte of each memory node is written.
const CHANGE: TxId = TxId {
    coord: 0,
    boot: 1,
    seq: 1,
};

/// What node 1 begins: the same bytes are read.
const LOOK: TxId = TxId {
    coord: 1,
    boot: 1,
    seq: 1,
};

fn change(alloc: Global) -> Result<Mini, RowFault>
    ensures { IfOk result (λ mini. refusal mini 2 16384 ≡ None) }
{
    let mut items = Items::new(alloc);
    items.push(Item::Write {
        memory: 0,
        at: BLOCK_AT,
        bytes: Bytes::from_slice(alloc, &[0x61])?,
    })?;
    items.push(Item::Write {
        memory: 1,
        at: BLOCK_AT,
        bytes: Bytes::from_slice(alloc, &[0x62])?,
    })?;
    mini_of(alloc, items)
}

fn look(alloc: Global) -> Result<Mini, RowFault>
    ensures { IfOk result (λ mini. refusal mini 2 16384 ≡ None) }
{
    let mut items = Items::new(alloc);
    items.push(Item::Read {
        memory: 0,
        at: BLOCK_AT,
        length: 1,
    })?;
    items.push(Item::Read {
        memory: 1,
        at: BLOCK_AT,
        length: 1,
    })?;
    mini_of(alloc, items)
}

/// The vote of a memory node, as it is posted.
fn voted(memory: u32, id: TxId, vote: Vote) -> Posted {
    Posted {
        from: Actor::Memory(memory),
        to: Actor::Node(id.coord),
        message: Message::Voted { id, vote },
    }
}

/// The decision on an identifier, as it is posted to a memory node.
fn decided(memory: u32, id: TxId, commit: bool) -> Posted {
    Posted {
        from: Actor::Node(id.coord),
        to: Actor::Memory(memory),
        message: Message::Decide { id, commit },
    }
}

/// That a memory node is through with an identifier, as it is posted.
fn done(memory: u32, id: TxId) -> Posted {
    Posted {
        from: Actor::Memory(memory),
        to: Actor::Node(id.coord),
        message: Message::Done { id },
    }
}

fn check(holds: bool, step: u32) -> Result<(), RowFault> {
    if holds {
        Ok(())
    } else {
        Err(RowFault::Step(step))
    }
}

/// Delivers a message, after which so many are posted, and this is the last of them.
fn step<L: Link>(
    cluster: &mut Cluster<PlanDisk, L>,
    k: u32,
    posted: u64,
    last: &Posted,
) -> Result<(), RowFault>
    requires { IsReady L.stands cluster.old }
    ensures { OnOk result (IsReady L.stands cluster.new) }
{
    deliver(cluster, k as u64)?;
    check(
        cluster.posted() == posted && cluster.message(posted) == Some(last),
        k,
    )
}

/// Both nodes begin, and memory node 1 votes on both: the reads meet a lock, so node 1 tells abort.
fn one_is_refused<L: Link>(
    alloc: Global,
    cluster: &mut Cluster<PlanDisk, L>,
) -> Result<(), RowFault>
    requires { IsReady L.stands cluster.old }
    ensures { OnOk result (IsReady L.stands cluster.new) }
{
    begin(cluster, 0, change(alloc)?)?;
    step(
        cluster,
        2,
        3,
        &voted(1, CHANGE, Vote::Granted(Reads::new(alloc))),
    )?;
    begin(cluster, 1, look(alloc)?)?;
    step(
        cluster,
        5,
        6,
        &voted(1, LOOK, Vote::Locked { holder: CHANGE }),
    )?;
    step(cluster, 6, 8, &decided(1, LOOK, false))
}

/// The other vote on the change comes, which is its place in the history; its node hears both, and tells commit.
fn one_is_committed<L: Link>(
    alloc: Global,
    cluster: &mut Cluster<PlanDisk, L>,
) -> Result<(), RowFault>
    requires { IsReady L.stands cluster.old }
    ensures { OnOk result (IsReady L.stands cluster.new) }
{
    check(cluster.committed().is_empty(), 6)?;
    step(
        cluster,
        1,
        9,
        &voted(0, CHANGE, Vote::Granted(Reads::new(alloc))),
    )?;
    check(cluster.committed() == [CHANGE].as_slice(), 1)?;
    deliver(cluster, 9)?;
    step(cluster, 3, 11, &decided(1, CHANGE, true))
}

/// What is late is refused: memory node 0 hears abort before it is asked.
fn one_is_late<L: Link>(cluster: &mut Cluster<PlanDisk, L>) -> Result<(), RowFault>
    requires { IsReady L.stands cluster.old }
    ensures { OnOk result (IsReady L.stands cluster.new) }
{
    step(cluster, 7, 12, &done(0, LOOK))?;
    step(
        cluster,
        4,
        13,
        &voted(0, LOOK, Vote::Forced { floor: LOOK }),
    )
}

/// The whole row.
fn row<L: Link + Drop>(alloc: Global, link: L) -> Result<(), RowFault>
    requires { L.stands link [] }
{
    let mut cluster = formatted(alloc, link)?;
    one_is_refused(alloc, &mut cluster)?;
    let refused = TxState::Done(Outcome::Refused {
        memory: 1,
        vote: Vote::Locked { holder: CHANGE },
    });
    check(is_at(&cluster, 1, &refused), 6)?;
    one_is_committed(alloc, &mut cluster)?;
    let committed = TxState::Done(Outcome::Committed(Reads::new(alloc)));
    check(is_at(&cluster, 0, &committed), 3)?;
    one_is_late(&mut cluster)?;
    check(cluster.committed() == [CHANGE].as_slice(), 4)
}

#[test]
fn two_phases_go_call_by_call(rt: HostRuntime) -> Result<(), Fail> {
    let alloc = rt.alloc();
    assert_eq!(rt; row(alloc, SimLink::new(alloc)), Ok(()));
    Ok(())
}

#[test]
fn a_local_link_serves_as_well(rt: HostRuntime) -> Result<(), Fail> {
    let alloc = rt.alloc();
    assert_eq!(rt; row(alloc, LocalLink::new(alloc)), Ok(()));
    Ok(())
}
