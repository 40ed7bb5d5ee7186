ghost use Rattle.std.specs.Prelude.{◌≡◌, ◌↔◌, List, length, All, IsTrue, IfOk, IfErr};
ghost use Rattle.std.specs.List.{flat_map, AllByRecursion};
ghost use Rattle.fs_dir.specs.declared.slot.Slot.{Slot};
ghost use Rattle.fs_dir.specs.declared.slot_fault.SlotFault.TheVariants.{Bad};
ghost use Rattle.fs_dir.specs.Slots.{AreSlots, FitsSlot, IsSlot, SpellsSlots, slot_bytes};

use crate::slot::{SLOT_BYTES, Slot, Slots};
use crate::slot_fault::SlotFault;
use fs_layout::{BLOCK_BYTES, SLOTS_PER_BLOCK, are_zeros};
use sfs_base::Seq;
use std::alloc::Global;

/// The bytes of the slots of a block.
const SLOTS_BYTES: usize = SLOT_BYTES * SLOTS_PER_BLOCK;

/// The slots of the block that bytes spell (`docs/FORMATS.md`, "Images"). `Bad` exactly where they are no
/// block of a directory, `NoMemory` where memory ran out.
pub fn read_slots(alloc: Global, bytes: &[u8]) -> Result<Slots, SlotFault>
    ensures found { IfOk result (λ slots. SpellsSlots slots bytes.now) }
    ensures bad { IfErr result (λ fault. fault ≡ Bad → (slots : List Slot) → SpellsSlots slots bytes.now → ⊥) }
{
    if bytes.len() != BLOCK_BYTES {
        return Err(SlotFault::Bad);
    }
    let (slots, zeros) = bytes.split_at(SLOTS_BYTES);
    if are_zeros(zeros) {
        read_all(alloc, slots)
    } else {
        Err(SlotFault::Bad)
    }
}

/// Whether these are the slots of a block: [`SLOTS_PER_BLOCK`] that it may have ([`Slot::is_slot`]).
pub fn are_slots(s: &Slots) -> bool
    ensures { IsTrue result ↔ AreSlots s.now }
{
    s.len() == SLOTS_PER_BLOCK && s.as_slice().iter().all(|slot| slot.is_slot())
}

/// Writes the slots of a block ([`are_slots`]) into [`BLOCK_BYTES`] bytes.
pub fn write_slots(s: &Slots, into: &mut [u8])
    requires fits { AreSlots s.now }
    requires room { length into.old ≡ 4096 }
    ensures { SpellsSlots s.now into.new }
{
    let (front, zeros) = into.split_at_mut(SLOTS_BYTES);
    write_all(s.as_slice(), front);
    zeros.fill(0);
}

// The slots that the bytes before the zeros spell.
fn read_all(alloc: Global, bytes: &[u8]) -> Result<Slots, SlotFault>
    requires { length bytes.now ≡ 4080 }
    ensures found { IfOk result (λ slots. (length slots ≡ 15) × AllByRecursion FitsSlot slots × (bytes.now ≡ flat_map slot_bytes slots)) }
    ensures bad { IfErr result (λ fault. fault ≡ Bad → (slots : List Slot) → length slots ≡ 15 → AllByRecursion FitsSlot slots → bytes.now ≡ flat_map slot_bytes slots → ⊥) }
{
    let mut slots = Seq::new(alloc);
    for index in 0..SLOTS_PER_BLOCK {
        let at = SLOT_BYTES * index;
        let slot = Slot::read(alloc, &bytes[at..at + SLOT_BYTES])?;
        slots.push(slot)?;
    }
    Ok(slots)
}

// Writes slots before the zeros.
fn write_all(slots: &[Slot], into: &mut [u8])
    requires sized { length slots.now ≡ 15 }
    requires fits { All IsSlot slots.now }
    requires room { length into.old ≡ 4080 }
    ensures fit { AllByRecursion FitsSlot slots.now }
    ensures written { into.new ≡ flat_map slot_bytes slots.now }
{
    for (index, slot) in slots.iter().enumerate() {
        let at = SLOT_BYTES * index;
        slot.write(&mut into[at..at + SLOT_BYTES]);
    }
}
