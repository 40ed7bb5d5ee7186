ghost use Rattle.std.specs.Prelude.{◌≡◌, ◌^◌, ◌<◌, ℕ, length, replicate, None, IfOk, OnOk, OnErr};
ghost use Rattle.fs_rules.specs.File.{used};
ghost use Rattle.fs_rules.specs.Slots as rule;
ghost use Rattle.fs_rules.specs.declared.content.Content.TheVariants.{Directory};
ghost use Rattle.fs_rules.specs.declared.entry.Entry.{Entry};

use crate::slots::{slot_for, slot_of};
use fs_rules::{Entry, NoMemory, SLOTS_PER_BLOCK, Slots, chains_up_to};
use std::alloc::Global;

/// Puts a name: into the slot that it has, else into the lowest empty one; where there is none, 15 empty
/// slots are added first. On [`NoMemory`] the slots are as before.
pub fn put_name(alloc: Global, slots: &mut Slots, entry: Entry) -> Result<(), NoMemory>
    ensures ok { OnOk result (slots.new ≡ rule.put_name slots.old entry) }
    ensures err { OnErr result (slots.new ≡ slots.old) }
{
    let at = match slot_for(slots, entry.name.as_slice()) {
        Some(at) => at,
        None => {
            let at = slots.len();
            slots.append(empty_slots(alloc)?)?;
            at
        }
    };
    slots.replace(at, Some(entry));
    Ok(())
}

/// Takes a name out, where it is there: its slot becomes empty. It takes no memory.
pub fn take_name(slots: &mut Slots, name: &[u8])
    ensures { slots.new ≡ rule.take_name slots.old name.now }
{
    if let Some(at) = slot_of(slots, name) {
        slots.replace(at, None);
    }
}

/// How many slots a directory would have after a name was put.
pub fn slots_after_put(slots: &Slots, name: &[u8]) -> usize
    ensures { (e : Entry) → e.name ≡ name.now → length slots.now < 2 ^ 32 → result ≡ length (rule.put_name slots.now e) }
{
    match slot_for(slots, name) {
        Some(_) => slots.len(),
        None => slots.len().saturating_add(SLOTS_PER_BLOCK),
    }
}

/// How many blocks of the cluster a directory would use after a name was put.
pub fn used_after_put(slots: &Slots, name: &[u8]) -> usize
    ensures { (e : Entry) → (parent : ℕ) → e.name ≡ name.now → length slots.now < 2 ^ 32 → result ≡ used (Directory (rule.put_name slots.now e) parent) }
{
    let blocks = slots_after_put(slots, name) / SLOTS_PER_BLOCK;
    blocks + chains_up_to(blocks.checked_sub(1))
}

// The empty slots of a new block.
fn empty_slots(alloc: Global) -> Result<Slots, NoMemory>
    ensures { IfOk result (λ slots. slots ≡ replicate 15 None) }
{
    let mut slots = Slots::new(alloc);
    for _ in 0..SLOTS_PER_BLOCK {
        slots.push(None)?;
    }
    Ok(slots)
}
