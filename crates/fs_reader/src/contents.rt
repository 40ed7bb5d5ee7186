ghost use Rattle.std.specs.Prelude.{◌≡◌, ◌<◌, ◌++◌, map, OnOk, IfOk, IfErr};
ghost use Rattle.std.specs.FinMap as table;
ghost use Rattle.fs_dir.specs.Slots.{SpellsSlots};
ghost use Rattle.fs_reader.specs.declared.tree_fault.TreeFault.TheVariants.{NoTree};
ghost use Rattle.fs_reader.specs.Contents.{CanHaveMore, CanPut, HasMoreSlots, IsPut, entry_of};

use crate::tree_fault::TreeFault;
use fs_dir::{Slot, SlotFault, read_slots};
use fs_layout::SLOTS_PER_BLOCK;
use fs_rules::{Blocks, Bytes, Content, Entry, NoMemory, Slots};
use std::alloc::Global;

// Adds the stored block with this index, whose bytes these are, to what a file contains. `NoTree` exactly
// where that is a directory, and the block is not its next one or spells no slots.
pub(crate) fn put(
    alloc: Global,
    content: &mut Content,
    index: u32,
    bytes: &[u8],
) -> Result<(), TreeFault>
    requires { index < 4080 }
    ensures ok { OnOk result (IsPut content.old index bytes.now content.new) }
    ensures none { IfErr result (λ fault. fault ≡ NoTree → CanPut content.old index bytes.now → ⊥) }
{
    match content {
        Content::Regular(blocks) => put_block(alloc, blocks, index, bytes),
        Content::Link(blocks) => put_block(alloc, blocks, index, bytes),
        Content::Directory { slots, .. } => put_slots(alloc, slots, index, bytes),
    }
}

// Adds a block of bytes.
fn put_block(alloc: Global, blocks: &mut Blocks, index: u32, bytes: &[u8]) -> Result<(), TreeFault>
    ensures ok { OnOk result (blocks.new ≡ table.insert blocks.old index bytes.now) }
    ensures none { IfErr result (λ fault. fault ≡ NoTree → ⊥) }
{
    blocks.insert(index, Bytes::from_slice(alloc, bytes)?)?;
    Ok(())
}

// Adds a block of slots.
fn put_slots(alloc: Global, slots: &mut Slots, index: u32, bytes: &[u8]) -> Result<(), TreeFault>
    requires { index < 4080 }
    ensures ok { OnOk result (HasMoreSlots slots.old index bytes.now slots.new) }
    ensures none { IfErr result (λ fault. fault ≡ NoTree → CanHaveMore slots.old index bytes.now → ⊥) }
{
    if slots.len() != SLOTS_PER_BLOCK * index as usize {
        return Err(TreeFault::NoTree);
    }
    let read = match read_slots(alloc, bytes) {
        Ok(read) => read,
        Err(SlotFault::Bad) => return Err(TreeFault::NoTree),
        Err(SlotFault::NoMemory) => return Err(TreeFault::NoMemory),
    };
    add_entries(alloc, slots, read.as_slice())?;
    Ok(())
}

// Adds the entries of slots.
fn add_entries(alloc: Global, slots: &mut Slots, read: &[Slot]) -> Result<(), NoMemory>
    ensures { OnOk result (slots.new ≡ slots.old ++ map entry_of read.now) }
{
    for slot in read {
        slots.push(entry_in(alloc, slot)?)?;
    }
    Ok(())
}

// The entry of a slot, if it has a file.
fn entry_in(alloc: Global, slot: &Slot) -> Result<Option<Entry>, NoMemory>
    ensures { IfOk result (λ entry. entry ≡ entry_of slot.now) }
{
    if !slot.is_in_use() {
        return Ok(None);
    }
    Ok(Some(Entry {
        name: Bytes::from_slice(alloc, slot.name.as_slice())?,
        file: slot.number,
    }))
}
