ghost use Rattle.std.specs.Prelude.{◌≡◌, ◌+◌, ◌/◌, ◌++◌, ◌≤◌, [], ◌∷◌, map, take, drop, flat_map, IfOk, OnOk, if◌then◌else◌};
ghost use Rattle.std.specs.List.{list_any};
ghost use Rattle.mini_tx.specs.declared.item.Item.TheVariants as item;
ghost use Rattle.plan_rules.specs.Compared.{compares, is_at_blocks, is_at_inodes, is_same, items_of, block_items, inode_items, subject_of};
ghost use Rattle.plan_rules.specs.declared.look.Subject.TheVariants.{Maps};
ghost use Rattle.plan_rules.specs.Told.{block_bits, inode_bits};
ghost use Rattle.plan_rules.specs.Works.{IsWorkSet};
ghost use Rattle.plan_looks.specs.Firsts.{AddsFirst};

use crate::looks::Looks;
use crate::maps::{block_bits_of, inode_bits_of};
use fs_layout::{BITMAPS_AT, INODE_BITMAP_AT};
use mini_tx::{Item, Items, Mini};
use node_cache::{Bytes, Held, NoMemory};
use plan_parts::{layout_of, push_stamp};
use plan_rules::{Look, Subject};
use std::alloc::Global;

/// A final minitransaction: it compares all that was looked at, each file and each map once and in the order of the
/// looks, and then reads and writes.
pub fn finished(alloc: Global, held: &Held, looks: &Looks, others: Items) -> Result<Mini, NoMemory>
    requires { IsWorkSet held.now }
    ensures { IfOk result (λ mini. mini ≡ compares held.now looks.now ++ others) }
{
    let mut items = compared(alloc, held, looks.as_slice())?;
    items.append(others)?;
    let size = layout_of(&held.geometry).image_bytes();
    match Mini::new(alloc, items, held.geometry.memories, size) {
        Ok(mini) => Ok(mini),
        Err(_) => Err(NoMemory),
    }
}

// The comparisons of what was looked at.
#[tactic(auto, unfolding(plan_rules::specs::Compared::compares))]
fn compared(alloc: Global, held: &Held, looks: &[Look]) -> Result<Items, NoMemory>
    requires { IsWorkSet held.now }
    ensures { IfOk result (λ items. items ≡ compares held.now looks.now) }
{
    let mut items = Items::new(alloc);
    let mut firsts = Looks::new(alloc);
    for look in looks {
        push_first(alloc, &mut items, &mut firsts, held, looks, *look)?;
    }
    Ok(items)
}

// Adds the comparisons of what a look is at, where none of the first looks so far is at the same.
fn push_first(
    alloc: Global,
    items: &mut Items,
    firsts: &mut Looks,
    held: &Held,
    looks: &[Look],
    look: Look,
) -> Result<(), NoMemory>
    requires { IsWorkSet held.now }
    ensures { OnOk result (AddsFirst held.now looks.now look items.old items.new firsts.old firsts.new) }
{
    if is_among(firsts.as_slice(), look) {
        return Ok(());
    }
    push_compares(alloc, items, held, looks, look)?;
    firsts.push(look)
}

// Whether one of these is a look at the same file or memory node.
fn is_among(looks: &[Look], look: Look) -> bool
    ensures { result ≡ list_any (is_same (subject_of look)) (map subject_of looks.now) }
{
    has_same(looks, look)
}

// The same, look by look.
fn has_same(looks: &[Look], look: Look) -> bool
    ensures { result ≡ list_any (λ other. is_same (subject_of look) (subject_of other)) looks.now }
{
    looks.iter().any(|other| is_same(look, *other))
}

// Whether two looks are at the same file, or at the maps of the same memory node.
fn is_same(look: Look, other: Look) -> bool
    ensures { result ≡ is_same (subject_of look) (subject_of other) }
{
    match (subject_of(look), subject_of(other)) {
        (Subject::File(number), Subject::File(another)) => number == another,
        (Subject::Maps(memory), Subject::Maps(another)) => memory == another,
        _ => false,
    }
}

// What a look is at.
fn subject_of(look: Look) -> Subject
    ensures { result ≡ subject_of look }
{
    match look {
        Look::Record(number) => Subject::File(number),
        Look::Chaining(number, _) => Subject::File(number),
        Look::Group(number, _) => Subject::File(number),
        Look::BlockBits(memory) => Subject::Maps(memory),
        Look::InodeBits(memory) => Subject::Maps(memory),
    }
}

// Adds the comparisons of what a look is at: the stamp of a file, or those of the two maps that were looked at.
fn push_compares(
    alloc: Global,
    items: &mut Items,
    held: &Held,
    looks: &[Look],
    look: Look,
) -> Result<(), NoMemory>
    requires { IsWorkSet held.now }
    ensures { OnOk result (items.new ≡ items.old ++ items_of held.now looks.now (subject_of look)) }
{
    match subject_of(look) {
        Subject::File(number) => push_stamp(alloc, items, held, number),
        Subject::Maps(memory) => push_maps(alloc, items, held, looks, memory),
    }
}

// Adds the comparisons of those maps of a memory node that were looked at.
fn push_maps(
    alloc: Global,
    items: &mut Items,
    held: &Held,
    looks: &[Look],
    memory: u32,
) -> Result<(), NoMemory>
    requires { IsWorkSet held.now }
    ensures { OnOk result (items.new ≡ items.old ++ items_of held.now looks.now (Maps memory)) }
{
    push_block_bits(alloc, items, held, looks, memory)?;
    push_inode_bits(alloc, items, held, looks, memory)
}

// Adds the comparison of the bits of the blocks, where they were looked at.
fn push_block_bits(
    alloc: Global,
    items: &mut Items,
    held: &Held,
    looks: &[Look],
    memory: u32,
) -> Result<(), NoMemory>
    requires { IsWorkSet held.now }
    ensures { OnOk result (items.new ≡ items.old ++ (if list_any (is_at_blocks memory) looks.now then block_items held.now memory else [])) }
{
    if has_block_bits(looks, memory) {
        items.push(block_item(alloc, held, memory)?)
    } else {
        Ok(())
    }
}

// Adds the comparison of the bits of the inodes, where they were looked at.
fn push_inode_bits(
    alloc: Global,
    items: &mut Items,
    held: &Held,
    looks: &[Look],
    memory: u32,
) -> Result<(), NoMemory>
    requires { IsWorkSet held.now }
    ensures { OnOk result (items.new ≡ items.old ++ (if list_any (is_at_inodes memory) looks.now then inode_items held.now memory else [])) }
{
    if has_inode_bits(looks, memory) {
        items.push(inode_item(alloc, held, memory)?)
    } else {
        Ok(())
    }
}

// Whether the bits of the blocks of a memory node were looked at.
fn has_block_bits(looks: &[Look], memory: u32) -> bool
    ensures { result ≡ list_any (is_at_blocks memory) looks.now }
{
    looks.iter().any(|look| is_at_blocks(memory, *look))
}

// Whether the bits of the inodes of a memory node were looked at.
fn has_inode_bits(looks: &[Look], memory: u32) -> bool
    ensures { result ≡ list_any (is_at_inodes memory) looks.now }
{
    looks.iter().any(|look| is_at_inodes(memory, *look))
}

// Whether a look is at the bits of the blocks of a memory node.
fn is_at_blocks(memory: u32, look: Look) -> bool
    ensures { result ≡ is_at_blocks memory look }
{
    match look {
        Look::BlockBits(other) => other == memory,
        _ => false,
    }
}

// Whether a look is at the bits of the inodes of a memory node.
fn is_at_inodes(memory: u32, look: Look) -> bool
    ensures { result ≡ is_at_inodes memory look }
{
    match look {
        Look::InodeBits(other) => other == memory,
        _ => false,
    }
}

// The comparison of the bits of the blocks of a memory node.
fn block_item(alloc: Global, held: &Held, memory: u32) -> Result<Item, NoMemory>
    requires { IsWorkSet held.now }
    ensures { IfOk result (λ i. i ≡ item.Compare memory 4096 (take ((held.now.geometry.blocks + 7) / 8) (block_bits held.now memory))) }
{
    Ok(Item::Compare {
        memory,
        at: BITMAPS_AT,
        bytes: bits_of(alloc, block_bits_of(held, memory), held.geometry.blocks)?,
    })
}

// The comparison of the bits of the inodes of a memory node.
fn inode_item(alloc: Global, held: &Held, memory: u32) -> Result<Item, NoMemory>
    requires { IsWorkSet held.now }
    ensures { IfOk result (λ i. i ≡ item.Compare memory 6144 (take ((held.now.geometry.inodes + 7) / 8) (inode_bits held.now memory))) }
{
    Ok(Item::Compare {
        memory,
        at: INODE_BITMAP_AT,
        bytes: bits_of(alloc, inode_bits_of(held, memory), held.geometry.inodes)?,
    })
}

// The bytes of a map that have so many bits.
fn bits_of(alloc: Global, map: &[u8], bits: u32) -> Result<Bytes, NoMemory>
    requires { bits ≤ 16384 }
    ensures { IfOk result (λ bytes. bytes ≡ take ((bits + 7) / 8) map.now) }
{
    let count = (bits as usize + 7) / 8;
    Bytes::from_slice(alloc, &map[..count.min(map.len())])
}
