ghost use Rattle.std.specs.Prelude.{◌≡◌, ◌+◌, ◌*◌, ◌<◌, ◌≤◌, ◌++◌, [], ◌∷◌, flat_map, IfOk, OnOk};
ghost use Rattle.fs_image.specs.Owners.{Chain, Block};
ghost use Rattle.mini_tx.specs.declared.item.Item.TheVariants as item;
ghost use Rattle.fs_layout.specs.Places.{record_at};
ghost use Rattle.fs_rules.specs.Lists.{below};
ghost use Rattle.plan_rules.specs.Compared.{stamp_items};
ghost use Rattle.plan_rules.specs.Fetched.{blocks_in, fetched, part_read};
ghost use Rattle.plan_rules.specs.Told.{memory_at, inode_at};
ghost use Rattle.plan_rules.specs.Works.{IsTold, IsWorkSet};

use crate::items::{push_block, push_stamp};
use crate::lookup::{dir_blocks, record_of};
use crate::place::{block_place, chain_place, layout_of, memory_of, record_place};
use fs_layout::{BITMAPS_AT, BLOCK_BYTES, INODE_BYTES};
use mini_tx::{Item, Items, Mini};
use node_cache::{BLOCKS_PER_GROUP, Held, NoMemory, Want};
use std::alloc::Global;

/// The minitransaction that reads a part that is told by what is held: a record, the maps of a memory node, or blocks
/// of a file, which are read where its stamp stands (`docs/FORMATS.md`, "What a call wants").
pub fn fetch(alloc: Global, want: &Want, held: &Held) -> Result<Mini, NoMemory>
    requires work { IsWorkSet held.now }
    requires told { IsTold held.now want.now }
    ensures { IfOk result (λ mini. mini ≡ fetched held.now want.now) }
{
    let items = items_of(alloc, *want, held)?;
    let size = layout_of(&held.geometry).image_bytes();
    match Mini::new(alloc, items, held.geometry.memories, size) {
        Ok(mini) => Ok(mini),
        Err(_) => Err(NoMemory),
    }
}

// The items that read a part.
#[tactic(auto, unfolding(plan_rules::specs::Fetched::fetched))]
fn items_of(alloc: Global, want: Want, held: &Held) -> Result<Items, NoMemory>
    requires work { IsWorkSet held.now }
    requires told { IsTold held.now want }
    ensures { IfOk result (λ items. items ≡ fetched held.now want) }
{
    match want {
        Want::Inode(number) => record_items(alloc, number),
        Want::Chain(number, index) => chain_items(alloc, held, number, index),
        Want::Slots(number, group) => group_items(alloc, held, number, group),
        Want::Map(memory) => map_items(alloc, memory),
    }
}

// The read of a record.
fn record_items(alloc: Global, number: u32) -> Result<Items, NoMemory>
    ensures { IfOk result (λ items. items ≡ item.Read (memory_at number) (record_at (inode_at number)) 128 ∷ []) }
{
    let mut items = Items::new(alloc);
    items.push(Item::Read {
        memory: memory_of(number),
        at: record_place(number),
        length: INODE_BYTES as u32,
    })?;
    Ok(items)
}

// The read of the maps of a memory node.
fn map_items(alloc: Global, memory: u32) -> Result<Items, NoMemory>
    ensures { IfOk result (λ items. items ≡ item.Read memory 4096 4096 ∷ []) }
{
    let mut items = Items::new(alloc);
    items.push(Item::Read {
        memory,
        at: BITMAPS_AT,
        length: BLOCK_BYTES as u32,
    })?;
    Ok(items)
}

// The read of a chaining block.
fn chain_items(alloc: Global, held: &Held, number: u32, index: u32) -> Result<Items, NoMemory>
    requires { IsWorkSet held.now }
    ensures { IfOk result (λ items. items ≡ stamp_items held.now number ++ part_read held.now number (Chain index)) }
{
    let mut items = Items::new(alloc);
    push_stamp(alloc, &mut items, held, number)?;
    push_block(&mut items, &held.geometry, chain_place(held, number, index))?;
    Ok(items)
}

// The reads of a group of slots.
fn group_items(alloc: Global, held: &Held, number: u32, group: u32) -> Result<Items, NoMemory>
    requires work { IsWorkSet held.now }
    requires few { group < 8 }
    ensures { IfOk result (λ items. items ≡ stamp_items held.now number ++ flat_map (λ j. part_read held.now number (Block (64 * group + j))) (below (blocks_in held.now number group))) }
{
    let mut items = Items::new(alloc);
    push_stamp(alloc, &mut items, held, number)?;
    for index in 0..blocks_in(held, number, group) {
        push_nth(&mut items, held, number, group, index)?;
    }
    Ok(items)
}

// Adds the read of a block of a group.
fn push_nth(
    items: &mut Items,
    held: &Held,
    number: u32,
    group: u32,
    index: u32,
) -> Result<(), NoMemory>
    requires work { IsWorkSet held.now }
    requires few { group < 8 }
    requires inside { index < 64 }
    ensures { OnOk result (items.new ≡ items.old ++ part_read held.now number (Block (64 * group + index))) }
{
    let at = BLOCKS_PER_GROUP * group + index;
    push_block(items, &held.geometry, block_place(held, number, at))
}

// How many blocks of a directory lie in a group.
fn blocks_in(held: &Held, number: u32, group: u32) -> u32
    requires { group < 8 }
    ensures exact { result ≡ blocks_in held.now number group }
    ensures few { result ≤ 64 }
{
    match record_of(held, number) {
        Some(attrs) => dir_blocks(attrs)
            .saturating_sub(BLOCKS_PER_GROUP * group)
            .min(BLOCKS_PER_GROUP),
        None => 0,
    }
}
