ghost use Rattle.std.specs.Prelude.{◌≡◌, ◌≢◌, ℕ, ◌*◌, ◌<◌, List, ◌↔◌, All, IsTrue, IfSome, IfNone, IfOk, IfErr};
ghost use Rattle.fs_chain.specs.declared.chain_block.ChainBlock.{ChainBlock as AChain};
ghost use Rattle.fs_chain.specs.Chains.{SpellsChain};
ghost use Rattle.fs_dir.specs.declared.slot.Slot.{Slot as ASlot};
ghost use Rattle.fs_dir.specs.declared.slot_fault.SlotFault.TheVariants.{Bad};
ghost use Rattle.fs_dir.specs.Slots.{SpellsSlots};
ghost use Rattle.fs_layout.specs.declared.attrs.Attrs.{Attrs as SomeAttrs};
ghost use Rattle.fs_layout.specs.Inodes.{SpellsInode};
ghost use Rattle.plan_rules.specs.Fits.{AreFitSlots, IsFitChain, IsFitRecord, IsFitSlot};

use crate::fit::{is_fit_record, is_number};
use crate::fit_chain::is_fit_chain;
use fs_chain::{ChainBlock, read_chain};
use fs_dir::{Slot, SlotFault, Slots, read_slots};
use fs_good::is_name;
use fs_layout::{Attrs, read_inode};
use fs_rules::Geometry;
use std::alloc::Global;

/// The record that bytes spell, where it is fit to be held. None exactly where they spell no such record.
pub fn read_record(geometry: &Geometry, bytes: &[u8]) -> Option<Attrs>
    ensures found { IfSome result (λ a. SpellsInode a bytes.now × IsFitRecord geometry.now a) }
    ensures none { IfNone result ((a : SomeAttrs) → SpellsInode a bytes.now → IsFitRecord geometry.now a → ⊥) }
{
    let attrs = read_inode(bytes)?;
    if is_fit_record(geometry, &attrs) {
        Some(attrs)
    } else {
        None
    }
}

/// The chaining block that bytes spell, where it is fit to be held as the one with this index of the file with this
/// number and record. None exactly where they spell no such block.
pub fn read_link(
    geometry: &Geometry,
    attrs: &Attrs,
    number: u32,
    index: u32,
    bytes: &[u8],
) -> Option<ChainBlock>
    requires { index < 8 }
    ensures found { IfSome result (λ c. SpellsChain c bytes.now × IsFitChain geometry.now attrs.now number index c) }
    ensures none { IfNone result ((c : AChain) → SpellsChain c bytes.now → IsFitChain geometry.now attrs.now number index c → ⊥) }
{
    let chain = read_chain(bytes)?;
    if is_fit_chain(geometry, attrs, number, index, &chain) {
        Some(chain)
    } else {
        None
    }
}

/// The slots of a block that bytes spell, where they are fit to be held. `Bad` exactly where they spell no such slots.
pub fn read_block(alloc: Global, geometry: &Geometry, bytes: &[u8]) -> Result<Slots, SlotFault>
    ensures found { IfOk result (λ s. SpellsSlots s bytes.now × AreFitSlots geometry.now s) }
    ensures bad { IfErr result (λ fault. fault ≡ Bad → (s : List ASlot) → SpellsSlots s bytes.now → AreFitSlots geometry.now s → ⊥) }
{
    let slots = read_slots(alloc, bytes)?;
    if are_fit(geometry, slots.as_slice()) {
        Ok(slots)
    } else {
        Err(SlotFault::Bad)
    }
}

// Whether slots are fit to be held.
fn are_fit(geometry: &Geometry, slots: &[Slot]) -> bool
    ensures { IsTrue result ↔ All (IsFitSlot geometry.now) slots.now }
{
    slots.iter().all(|slot| is_fit(geometry, slot))
}

// Whether a slot, where it is in use, has the number of a file of this cluster and a name that a tree may have.
fn is_fit(geometry: &Geometry, slot: &Slot) -> bool
    ensures { IsTrue result ↔ IsFitSlot geometry.now slot.now }
{
    !slot.is_in_use() || (is_number(geometry, slot.number) && is_name(slot.name.as_slice()))
}
