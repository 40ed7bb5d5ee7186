ghost use Rattle.std.specs.Prelude.{◌≡◌, ◌<◌, ◌≤◌, [], ℕ, true, Some, IfOk, IfErr, OnErr, OnOk, length, slice_get};
ghost use Rattle.disk_model.specs.Shelf.{IsAtRest};
ghost use Rattle.mem_node.specs.Node.{node_disk_of};
ghost use Rattle.mem_rules.specs.Fit.{IsSetup};
ghost use Rattle.cluster_parts.specs.Slots.{node_in};
ghost use Rattle.cluster_memories.specs.Memories.{setup_for, slots_in};
ghost use Rattle.cluster_format.specs.Formats.{AreFresh, GivesBack, HasFailed, IsGivenBack, IsHeld, shelves_of};

use crate::cluster_fault::ClusterFault;
use crate::formatting::add;
use cluster_memories::Memories;
use disk_model::{Disk, Shelf};
use mem_node::Setup;
use mini_tx::Geometry4;
use std::alloc::Global;

/// Gives the disks of these memory nodes back, the last one first. It takes no memory.
pub fn give_back<D: Disk + Drop, H: Shelf<D = D>>(shelf: &mut H, memories: Memories<D>)
    requires held { (j : ℕ) → j < length (slots_in memories) → H.is_taken shelf.old j ≡ true }
    requires own { H.tells shelf.old → (j : ℕ) (slot : _) → slice_get (slots_in memories) j ≡ Some slot
        → D.tells (node_disk_of (node_in slot)) }
    requires few { length (slots_in memories) ≤ 8 }
    ensures { GivesBack (shelves_of H.tells H.disks H.is_taken H.faults) (length (slots_in memories)) shelf.old shelf.new }
{
    let mut memories = memories;
    while let Some(slot) = memories.pop() {
        shelf.give(memories.len() as u32, slot.into_disk());
    }
}

/// Formats the memory nodes of a cluster, one after another. Where it is refused, those that were formatted before
/// have their disks.
fn fill<D: Disk + Drop, H: Shelf<D = D>>(
    alloc: Global,
    shelf: &mut H,
    geometry: Geometry4,
    memories: &mut Memories<D>,
) -> Result<(), ClusterFault>
    requires none { slots_in memories.old ≡ [] }
    requires setup { (m : ℕ) → m < geometry.memories → IsSetup (setup_for geometry m) }
    requires few { geometry.memories ≤ 8 }
    requires rest { H.tells shelf.old → (m : ℕ) (disk : _) → m < geometry.memories → H.disks shelf.old m ≡ Some disk
        → IsAtRest D.history D.health disk }
    ensures held { IsHeld (shelves_of H.tells H.disks H.is_taken H.faults) D.tells shelf.old shelf.new (slots_in memories.new) }
    ensures few { length (slots_in memories.new) ≤ 8 }
    ensures many { OnOk result (length (slots_in memories.new) ≡ geometry.memories) }
    ensures fresh { OnOk result (AreFresh D.tells D.history D.health geometry
        (H.tells shelf.old) (slots_in memories.new)) }
    ensures cause { IfErr result (HasFailed (shelves_of H.tells H.disks H.is_taken H.faults) D.health
        (length (slots_in memories.new)) shelf.old shelf.new) }
{
    for m in 0..geometry.memories {
        add(alloc, shelf, memories, Setup { geometry, index: m })?;
    }
    Ok(())
}

/// The memory nodes of a cluster that it formats: each on the disk of its number, with the fresh image and no record.
/// Nothing is pending on these disks. A refused call has given every disk back that it took.
/// [`ClusterFault::Failed`]: the shelf failed, or a disk. [`ClusterFault::Damaged`]: a disk does not have what was
/// written. [`ClusterFault::NoMemory`]: there is no memory, or a disk is starved.
pub fn format<D: Disk + Drop, H: Shelf<D = D>>(
    alloc: Global,
    shelf: &mut H,
    geometry: Geometry4,
) -> Result<Memories<D>, ClusterFault>
    requires setup { (m : ℕ) → m < geometry.memories → IsSetup (setup_for geometry m) }
    requires few { geometry.memories ≤ 8 }
    requires rest { H.tells shelf.old → (m : ℕ) (disk : _) → m < geometry.memories → H.disks shelf.old m ≡ Some disk
        → IsAtRest D.history D.health disk }
    ensures held { IfOk result (λ memories. IsHeld (shelves_of H.tells H.disks H.is_taken H.faults) D.tells shelf.old shelf.new
        (slots_in memories)) }
    ensures many { IfOk result (λ memories. length (slots_in memories) ≡ geometry.memories) }
    ensures fresh { IfOk result (λ memories. AreFresh D.tells D.history D.health geometry
        (H.tells shelf.old) (slots_in memories)) }
    ensures given_back { OnErr result (IsGivenBack (shelves_of H.tells H.disks H.is_taken H.faults) shelf.old shelf.new) }
    ensures cause { IfErr result (λ fault. (m : ℕ)
        × HasFailed (shelves_of H.tells H.disks H.is_taken H.faults) D.health m shelf.old shelf.new fault) }
{
    let mut memories = Memories::new(alloc);
    match fill(alloc, shelf, geometry, &mut memories) {
        Ok(()) => Ok(memories),
        Err(fault) => {
            give_back(shelf, memories);
            Err(fault)
        }
    }
}
