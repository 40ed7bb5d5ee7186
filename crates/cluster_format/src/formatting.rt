ghost use Rattle.std.specs.Prelude.{◌≡◌, ◌++◌, [], ◌∷◌, Some, IfOk, IfErr, OnErr, OnOk};
ghost use Rattle.disk_model.specs.Shelf.{IsAtRest};
ghost use Rattle.mem_rules.specs.Fit.{IsSetup};
ghost use Rattle.mem_node.specs.Format.{IsFreshFault};
ghost use Rattle.cluster_memories.specs.Memories.{slots_in};
ghost use Rattle.cluster_format.specs.Formats.{HasFailed, IsCause, IsFresh, Leaves, Takes, shelves_of};

use crate::cluster_fault::ClusterFault;
use cluster_memories::{Memories, MemorySlot};
use disk_model::{Disk, Shelf};
use mem_node::{MemNode, NodeFault, Setup};
use std::alloc::Global;

/// Why a cluster is not formatted, by why a memory node was not: a disk that is starved has no memory.
fn cause(fault: NodeFault, starved: bool) -> ClusterFault
    requires { IsFreshFault fault (Unit {0}) }
    ensures { IsCause fault starved result }
{
    match fault {
        NodeFault::Down => if starved {
            ClusterFault::NoMemory
        } else {
            ClusterFault::Failed
        },
        NodeFault::Damaged { at } => ClusterFault::Damaged { at },
        NodeFault::NoMemory => ClusterFault::NoMemory,
        NodeFault::Full | NodeFault::Other => unreachable!(),
    }
}

/// Takes the disk of a memory node, and makes it that of a fresh one. A refused call has given the disk back.
pub(crate) fn format_one<D: Disk + Drop, H: Shelf<D = D>>(
    alloc: Global,
    shelf: &mut H,
    setup: Setup,
) -> Result<MemorySlot<D>, ClusterFault>
    requires setup { IsSetup setup }
    requires rest { H.tells shelf.old → (disk : _) → H.disks shelf.old setup.index ≡ Some disk → IsAtRest D.history D.health disk }
    ensures fresh { IfOk result (λ slot. IsFresh D.tells D.history D.health setup (H.tells shelf.old) slot) }
    ensures takes { OnOk result (Takes (shelves_of H.tells H.disks H.is_taken H.faults) setup.index shelf.old shelf.new) }
    ensures leaves { OnErr result (Leaves (shelves_of H.tells H.disks H.is_taken H.faults) setup.index shelf.old shelf.new) }
    ensures cause { IfErr result (HasFailed (shelves_of H.tells H.disks H.is_taken H.faults) D.health setup.index shelf.old shelf.new) }
{
    let disk = match shelf.take(setup.index) {
        Ok(disk) => disk,
        Err(_failed) => return Err(ClusterFault::Failed),
    };
    match MemNode::fresh(alloc, disk, setup) {
        Ok(node) => Ok(MemorySlot::new(node)),
        Err((fault, disk)) => {
            let starved = disk.starved();
            shelf.give(setup.index, disk);
            Err(cause(fault, starved))
        }
    }
}

/// Formats one memory node more, which has the next number. A refused call has given its disk back.
pub(crate) fn add<D: Disk + Drop, H: Shelf<D = D>>(
    alloc: Global,
    shelf: &mut H,
    memories: &mut Memories<D>,
    setup: Setup,
) -> Result<(), ClusterFault>
    requires setup { IsSetup setup }
    requires rest { H.tells shelf.old → (disk : _) → H.disks shelf.old setup.index ≡ Some disk → IsAtRest D.history D.health disk }
    ensures fresh { OnOk result ((slot : _) × (slots_in memories.new ≡ slots_in memories.old ++ slot ∷ [])
        × IsFresh D.tells D.history D.health setup (H.tells shelf.old) slot) }
    ensures same { OnErr result (slots_in memories.new ≡ slots_in memories.old) }
    ensures takes { OnOk result (Takes (shelves_of H.tells H.disks H.is_taken H.faults) setup.index shelf.old shelf.new) }
    ensures leaves { OnErr result (Leaves (shelves_of H.tells H.disks H.is_taken H.faults) setup.index shelf.old shelf.new) }
    ensures cause { IfErr result (HasFailed (shelves_of H.tells H.disks H.is_taken H.faults) D.health setup.index shelf.old shelf.new) }
{
    let slot = format_one(alloc, shelf, setup)?;
    match memories.push(slot) {
        Ok(()) => Ok(()),
        Err(slot) => {
            shelf.give(setup.index, slot.into_disk());
            Err(ClusterFault::NoMemory)
        }
    }
}
