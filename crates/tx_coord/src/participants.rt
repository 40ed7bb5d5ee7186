ghost use Rattle.std.specs.Prelude.{◌≡◌, length, map, IfOk};
ghost use Rattle.tx_coord.specs.Rules.{has_granted as is_granted_by, is_in, missing, participants_of, placed_for as items_for, prepare as prepare_for, prepares as prepares_of};
ghost use Rattle.mini_tx.specs.Minitransactions.{memory_of};
ghost use Rattle.tx_coord.specs.State.{Runs};

use crate::grant::Grant;
use crate::outgoing::{Outbox, Outgoing};
use crate::running::Running;
use mini_tx::{Item, Message, Mini, NoMemory, Numbers, Placed, PlacedItem, TxId};
use sfs_base::Seq;
use std::alloc::Global;

/// The number of an item's memory node.
pub(crate) fn memory(item: &Item) -> u32
    ensures { result ≡ memory_of item.now }
{
    match item {
        Item::Compare { memory, .. } | Item::Read { memory, .. } | Item::Write { memory, .. } => {
            *memory
        }
    }
}

/// Whether the vote of a memory node was counted.
pub(crate) fn has_granted(grants: &[Grant], memory: u32) -> bool
    ensures { result ≡ is_granted_by grants.now memory }
{
    grants.iter().any(|grant| grant.memory == memory)
}

/// Whether a number is among these.
pub(crate) fn is_among(memory: u32, memories: &[u32]) -> bool
    ensures { result ≡ is_in memory memories.now }
{
    memories.iter().any(|other| *other == memory)
}

/// The participants of a minitransaction.
pub(crate) fn participants(mini: &Mini) -> &[u32]
    ensures { result.now ≡ participants_of mini.now }
{
    mini.participants()
}

/// A copy of an item.
fn copied(item: &Item) -> Result<Item, NoMemory>
    ensures { IfOk result (λ copy. copy ≡ item.now) }
{
    Ok(item.clone()?)
}

/// The items of a memory node with their places. [`NoMemory`]: also where there are more items than places.
pub(crate) fn placed_for(
    alloc: Global,
    items: &[Item],
    memory_node: u32,
) -> Result<Placed, NoMemory>
    ensures { IfOk result (λ placed. placed ≡ items_for items.now memory_node) }
{
    let mut placed = Seq::new(alloc);
    let mut next: u32 = 0;
    for item in items {
        if next == u32::MAX {
            return Err(NoMemory);
        }
        let place = next;
        next += 1;
        if memory(item) == memory_node {
            placed.push(PlacedItem {
                place,
                item: copied(item)?,
            })?;
        }
    }
    Ok(placed)
}

/// The participants whose vote is missing.
pub(crate) fn missing_of(alloc: Global, running: &Running) -> Result<Numbers, NoMemory>
    ensures { IfOk result (λ memories. memories ≡ missing running.now) }
{
    let mut memories = Seq::new(alloc);
    for memory in participants(&running.mini) {
        if !has_granted(running.grants.as_slice(), *memory) {
            memories.push(*memory)?;
        }
    }
    Ok(memories)
}

/// The `prepare` of a minitransaction for a memory node.
pub(crate) fn prepare(
    alloc: Global,
    id: TxId,
    mini: &Mini,
    memory: u32,
) -> Result<Outgoing, NoMemory>
    ensures { IfOk result (λ posted. posted ≡ prepare_for id mini.now memory) }
{
    Ok(Outgoing {
        memory,
        message: Message::Prepare {
            id,
            participants: Seq::from_slice(alloc, participants(mini))?,
            items: placed_for(alloc, mini.items().as_slice(), memory)?,
        },
    })
}

/// The `prepare` of what runs, for each of these.
fn prepares_to(alloc: Global, running: &Running, memories: &[u32]) -> Result<Outbox, NoMemory>
    ensures { IfOk result (λ posts. posts ≡ map (prepare_for running.now.id running.now.mini) memories.now) }
{
    let mut posts = Seq::new(alloc);
    for memory in memories {
        posts.push(prepare(alloc, running.id, &running.mini, *memory)?)?;
    }
    Ok(posts)
}

/// The `prepare` of what runs, for each participant whose vote is missing.
pub(crate) fn prepares(alloc: Global, running: &Running) -> Result<Outbox, NoMemory>
    ensures { IfOk result (λ posts. posts ≡ prepares_of (Runs running.now)) }
{
    let memories = missing_of(alloc, running)?;
    prepares_to(alloc, running, memories.as_slice())
}
