ghost use Rattle.std.specs.Prelude.{◌≡◌, ◌+◌, ◌*◌, ◌<◌, ◌≤◌, ℕ, List, length, slice_get, Some, Err, IfSome, IfOk, OnOk, OnErr};
ghost use Rattle.fs_dir.specs.Slots.{SpellsSlots};
ghost use Rattle.fs_image.specs.Owners.{Block};
ghost use Rattle.node_cache.specs.declared.want.Want.TheVariants as want;
ghost use Rattle.plan_rules.specs.Fetched.{AreFitSlotsRead, IsGroupKept, IsUnfitAt, blocks_in};
ghost use Rattle.plan_rules.specs.Fits.{AreFitSlots};
ghost use Rattle.plan_rules.specs.Told.{at_record, dir_blocks, place_of};
ghost use Rattle.plan_rules.specs.Works.{IsTold, IsWorkSet};
ghost use Rattle.plan_keep.specs.declared.keep_fault.KeepFault.TheVariants.{Damaged};
ghost use Rattle.plan_keep.specs.Links.{AreSlotsRead, IsNthUnfit, IsUnfitBlock, LiesThere};

use crate::keep_fault::KeepFault;
use crate::links::fault_at;
use fs_dir::{SlotFault, Slots};
use node_cache::{BLOCKS_PER_GROUP, Bytes, Held, HeldGroup};
use plan_parts::{block_place, push_group, read_block};
use std::alloc::Global;

/// Holds the group of slots that was read, block by block, where all are fit. On a refusal all is as before.
pub(crate) fn keep_group(
    alloc: Global,
    held: &mut Held,
    number: u32,
    group: u32,
    reads: &[Bytes],
) -> Result<(), KeepFault>
    requires work { IsWorkSet held.old }
    requires told { IsTold held.old (want.Slots number group) }
    requires reads { length reads.now ≡ blocks_in held.old number group }
    ensures ok { OnOk result (IsGroupKept held.old number group reads.now held.new) }
    ensures err { OnErr result (held.new ≡ held.old) }
    ensures damaged { (m at : ℕ) → result ≡ Err (Damaged m at) → IsUnfitAt held.old (want.Slots number group) reads.now m at }
{
    let slots = read_group(alloc, held, number, group, reads)?;
    Ok(push_group(alloc, held, number, HeldGroup { group, slots })?)
}

// The slots of all blocks, one behind the other.
fn read_group(
    alloc: Global,
    held: &Held,
    number: u32,
    group: u32,
    reads: &[Bytes],
) -> Result<Slots, KeepFault>
    requires work { IsWorkSet held.now }
    requires told { IsTold held.now (want.Slots number group) }
    requires reads { length reads.now ≡ blocks_in held.now number group }
    ensures found { IfOk result (AreSlotsRead held.now.geometry reads.now (length reads.now)) }
    ensures damaged { (m at : ℕ) → result ≡ Err (Damaged m at) → IsUnfitBlock held.now number group reads.now m at }
{
    let mut slots = Slots::new(alloc);
    for index in 0..reads.len() {
        let more = read_nth(alloc, held, number, group, index, &reads[index])?;
        slots.append(more)?;
    }
    Ok(slots)
}

// The slots of one block.
fn read_nth(
    alloc: Global,
    held: &Held,
    number: u32,
    group: u32,
    index: usize,
    bytes: &Bytes,
) -> Result<Slots, KeepFault>
    requires work { IsWorkSet held.now }
    requires told { IsTold held.now (want.Slots number group) }
    requires inside { index < blocks_in held.now number group }
    ensures found { IfOk result (λ s. SpellsSlots s bytes.now × AreFitSlots held.now.geometry s) }
    ensures damaged { (m at : ℕ) → result ≡ Err (Damaged m at) → IsNthUnfit held.now number (64 * group + index) bytes.now m at }
{
    match read_block(alloc, &held.geometry, bytes.as_slice()) {
        Ok(slots) => Ok(slots),
        Err(SlotFault::Bad) => Err(block_fault(held, number, group, index as u32)),
        Err(SlotFault::NoMemory) => Err(KeepFault::NoMemory),
    }
}

// Where a block of a group lies.
fn block_fault(held: &Held, number: u32, group: u32, index: u32) -> KeepFault
    requires work { IsWorkSet held.now }
    requires told { IsTold held.now (want.Slots number group) }
    requires inside { index < blocks_in held.now number group }
    ensures { (m at : ℕ) → result ≡ Damaged m at → IfSome (place_of held.now number (Block (64 * group + index))) (λ r. LiesThere held.now.geometry r m at) }
{
    let nth = BLOCKS_PER_GROUP * group + index;
    fault_at(&held.geometry, block_place(held, number, nth).unwrap())
}
