ghost use Rattle.std.specs.Prelude.{◌≡◌, ◌+◌, ◌++◌, [], ◌∷◌, IfOk, IfSome, OnOk};
ghost use Rattle.std.specs.Option.{option_map_or};
ghost use Rattle.fs_rules.specs.Geometry.{IsWithinLimits};
ghost use Rattle.fs_image.specs.Stamps.{stamp};
ghost use Rattle.fs_image.specs.Stands.{IsBlock};
ghost use Rattle.fs_layout.specs.Places.{record_at};
ghost use Rattle.mini_tx.specs.declared.item.Item.TheVariants as item;
ghost use Rattle.plan_rules.specs.Compared.{stamp_items};
ghost use Rattle.plan_rules.specs.Fetched.{block_read};
ghost use Rattle.plan_rules.specs.Told.{memory_at, inode_at};

use crate::lookup::record_of;
use crate::place::{layout_of, memory_of, record_place};
use fs_layout::{Attrs, BLOCK_BYTES, Reference, write_words};
use fs_rules::Geometry;
use mini_tx::{Item, Items};
use node_cache::{Held, NoMemory};
use sfs_base::Bytes;
use std::alloc::Global;

/// The bytes of a stamp.
const STAMP_BYTES: usize = 16;

/// Where the stamp of a file stands in its record.
const STAMP_AT: u32 = 24;

/// What stands above the low word of a change number.
const HIGH_WORD: u64 = 1 << 32;

/// Adds the comparison of the stamp of a file whose record is held: its generation, its blocks in use and its change
/// number. On [`NoMemory`] the items are of no use.
pub fn push_stamp(
    alloc: Global,
    items: &mut Items,
    held: &Held,
    number: u32,
) -> Result<(), NoMemory>
    ensures { OnOk result (items.new ≡ items.old ++ stamp_items held.now number) }
{
    match record_of(held, number) {
        Some(attrs) => items.push(stamp_item(alloc, number, *attrs)?),
        None => Ok(()),
    }
}

// The comparison of a stamp.
fn stamp_item(alloc: Global, number: u32, attrs: Attrs) -> Result<Item, NoMemory>
    ensures { IfOk result (λ i. i ≡ item.Compare (memory_at number) (record_at (inode_at number) + 24) (stamp attrs)) }
{
    Ok(Item::Compare {
        memory: memory_of(number),
        at: record_place(number) + STAMP_AT,
        bytes: Bytes::from_slice(alloc, &stamp_of(attrs))?,
    })
}

// The bytes of a stamp.
fn stamp_of(attrs: Attrs) -> [u8; STAMP_BYTES]
    ensures { result ≡ stamp attrs }
{
    let high = (attrs.change / HIGH_WORD) as u32;
    let low = (attrs.change % HIGH_WORD) as u32;
    let mut bytes = [0; STAMP_BYTES];
    write_words(&[attrs.generation, attrs.used, high, low], &mut bytes);
    bytes
}

/// Adds the read of a block of the cluster, where there is one. On [`NoMemory`] the items are of no use.
pub fn push_block(
    items: &mut Items,
    geometry: &Geometry,
    place: Option<Reference>,
) -> Result<(), NoMemory>
    requires limits { IsWithinLimits geometry.now }
    requires inside { IfSome place (IsBlock geometry.now) }
    ensures { OnOk result (items.new ≡ items.old ++ option_map_or (λ r. block_read geometry.now r ∷ []) place []) }
{
    match place {
        Some(at) => items.push(block_item(geometry, at)),
        None => Ok(()),
    }
}

// The read of a block.
fn block_item(geometry: &Geometry, at: Reference) -> Item
    requires limits { IsWithinLimits geometry.now }
    requires inside { IsBlock geometry.now at }
    ensures { result ≡ block_read geometry.now at }
{
    Item::Read {
        memory: at.memory,
        at: layout_of(geometry).block_at(at.block),
        length: BLOCK_BYTES as u32,
    }
}
