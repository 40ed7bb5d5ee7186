//! What is kept of a minitransaction that was begun.
ghost use Rattle.std.specs.Prelude.{◌≡◌, map, if◌then◌else◌, Some, None, IfOk};
ghost use Rattle.mini_tx.specs.Minitransactions.{bytes_of, memory_of, place_of};
ghost use Rattle.node_rules.specs.Begin.{written, writes_map};
ghost use Rattle.node_rules.specs.Plans.{read_sizes};
ghost use Rattle.plan_rules.specs.Fetched.{is_read};

use fs_layout::{BITMAPS_AT, INODES_AT};
use mini_tx::{Item, Numbers};
use node_cache::NoMemory;
use std::alloc::Global;

/// The address of each item.
pub fn places(alloc: Global, items: &[Item]) -> Result<Numbers, NoMemory>
    ensures { IfOk result (λ places. places ≡ map place_of items.now) }
{
    let mut places = Numbers::new(alloc);
    for item in items {
        places.push(place_of(item))?;
    }
    Ok(places)
}

/// The memory nodes whose maps are written, once for each item that writes them.
pub fn written(alloc: Global, items: &[Item]) -> Result<Numbers, NoMemory>
    ensures { IfOk result (λ memories. memories ≡ written items.now) }
{
    let mut memories = Numbers::new(alloc);
    for item in items {
        if writes_map(item) {
            memories.push(memory_of(item))?;
        }
    }
    Ok(memories)
}

/// How many bytes each read item reads.
pub fn sizes(alloc: Global, items: &[Item]) -> Result<Numbers, NoMemory>
    ensures { IfOk result (λ sizes. sizes ≡ read_sizes items.now) }
{
    let mut sizes = Numbers::new(alloc);
    for item in items {
        if let Some(len) = bytes_read(item) {
            sizes.push(len)?;
        }
    }
    Ok(sizes)
}

// How many bytes an item reads, if it is a read item.
fn bytes_read(item: &Item) -> Option<u32>
    ensures { result ≡ (if is_read item.now then Some (bytes_of item.now) else None) }
{
    match item {
        Item::Read { length, .. } => Some(*length),
        Item::Compare { .. } | Item::Write { .. } => None,
    }
}

// The address of an item.
fn place_of(item: &Item) -> u32
    ensures { result ≡ place_of item.now }
{
    match item {
        Item::Compare { at, .. } | Item::Read { at, .. } | Item::Write { at, .. } => *at,
    }
}

// The memory node of an item.
fn memory_of(item: &Item) -> u32
    ensures { result ≡ memory_of item.now }
{
    match item {
        Item::Compare { memory, .. } | Item::Read { memory, .. } | Item::Write { memory, .. } => {
            *memory
        }
    }
}

// Whether an item writes maps: they lie in the second page.
fn writes_map(item: &Item) -> bool
    ensures { result ≡ writes_map item.now }
{
    match item {
        Item::Write { at, .. } => BITMAPS_AT <= *at && *at < INODES_AT,
        Item::Compare { .. } | Item::Read { .. } => false,
    }
}
