ghost use Rattle.std.specs.Prelude.{◌≡◌, ◌≤◌, ◌<◌, ◌+◌, ◌^◌, false, [], None, IfOk, IfErr, OnOk};
ghost use Rattle.disk_model.specs.Calls.{IsReady};
ghost use Rattle.disk_model.specs.Crash.{LeavesOnly};
ghost use Rattle.disk_model.specs.Health.{Fell, IsLive, Passed, Speaks};
ghost use Rattle.gate_log.specs.declared.side.Side.TheVariants.{First};
ghost use Rattle.gate_log.specs.Log.{IsLog, base_of, disk_of, has_failed};
ghost use Rattle.mini_tx.specs.FreshImages.{fresh_image};
ghost use Rattle.mem_rules.specs.Fit.{IsSetup};
ghost use Rattle.mem_rules.specs.Memory.{setup_in, state_of};
ghost use Rattle.mem_rules.specs.State.{opened};
ghost use Rattle.node_disk.specs.Half.{half_of, log_at};
ghost use Rattle.mem_node.specs.Format.{IsFresh, IsFormatFault, IsFormatting, IsFreshFault};
ghost use Rattle.mem_node.specs.Node.{IsOnDisk, node_state_of, setup_of, shut_of};

use crate::mem_node::MemNode;
use crate::node_fault::NodeFault;
use disk_model::Disk;
use gate_log::{Log, Side};
use mem_rules::{Memory, Setup};
use node_disk::{fresh, front, log_at, write_node};
use sfs_base::NoMemory;
use std::alloc::Global;

/// Lays a fresh memory node out on a disk, each step safe before the next.
pub(crate) fn lay_fresh<D: Disk>(alloc: Global, disk: &mut D, setup: Setup) -> Result<(), NodeFault>
    requires { IsSetup setup }
    ensures fresh { OnOk result (IsReady D.tells D.history D.health disk.old
        → IsFresh setup (D.history disk.new).now.content × IsReady D.tells D.history D.health disk.new) }
    ensures half { OnOk result (IsReady D.tells D.history D.health disk.old
        → half_of (D.history disk.new).now.content ≡ First) }
    ensures any_moment { IsReady D.tells D.history D.health disk.old
        → LeavesOnly (D.history disk.old) (D.history disk.new)
        (IsFormatting setup (D.history disk.old).now.content) }
    ensures still { Speaks D.tells D.health disk.old → D.tells disk.new }
    ensures refused { IfErr result (λ fault. IsFormatFault fault
        (Fell 8 (D.health disk.old) (D.health disk.new)) (disk.new ≡ disk.old)) }
    ensures passed { OnOk result (Passed 8 (D.health disk.old) (D.health disk.new)) }
    ensures live { OnOk result (IsLive 8 (D.health disk.old)) }
{
    let image = fresh(alloc, setup)?;
    let front = front(alloc, setup)?;
    write_node(disk, &front, &image)?;
    Ok(())
}

/// What a fresh memory node has.
fn fresh_memory(alloc: Global, setup: Setup) -> Result<Memory, NoMemory>
    requires { IsSetup setup }
    ensures state { IfOk result (λ memory. state_of memory
        ≡ opened setup.geometry.nodes (fresh_image setup.geometry setup.index)) }
    ensures setup { IfOk result (λ memory. setup_in memory ≡ setup) }
{
    let image = fresh(alloc, setup)?;
    Memory::opened(alloc, setup, image)
}

/// The log without entries that begins at this place. A refused call hands the disk back.
/// [`NodeFault::Damaged`]: it has one, or is damaged.
fn empty_log<D: Disk>(alloc: Global, disk: D, base: u64) -> Result<Log<D>, (NodeFault, D)>
    requires { base + 2 ^ 32 < 2 ^ 64 }
    ensures entries { IfOk result (λ log. IsReady D.tells D.history D.health disk
        → IsLog D.tells D.history D.health log []) }
    ensures base { IfOk result (λ log. base_of log ≡ base) }
    ensures ready { IfOk result (λ log. has_failed log ≡ false) }
    ensures same { IfOk result (λ log. Speaks D.tells D.health disk
        → D.history (disk_of log) ≡ D.history disk) }
    ensures told { IfErr result (λ refusal. Speaks D.tells D.health disk → D.tells refusal.1) }
    ensures refused { IfErr result (λ refusal. IsFreshFault refusal.0 (Fell 0 (D.health disk) (D.health refusal.1))) }
{
    match Log::load(alloc, disk, base) {
        Ok((log, entries)) => {
            if entries.len() == 0 {
                Ok(log)
            } else {
                Err((NodeFault::Damaged { at: base }, log.into_disk()))
            }
        }
        Err((fault, disk)) => Err((NodeFault::from(fault), disk)),
    }
}

/// The memory node of a disk that it formats: it has the fresh image, and no record. Nothing may be pending on
/// the disk. A refused call hands the disk back. [`NodeFault::Down`]: the disk failed. [`NodeFault::Damaged`]: the
/// disk does not have what was written. [`NodeFault::NoMemory`]: there is no memory.
pub(crate) fn fresh_node<D: Disk>(
    alloc: Global,
    disk: D,
    setup: Setup,
) -> Result<MemNode<D>, (NodeFault, D)>
    requires { IsSetup setup }
    ensures state { IfOk result (λ node. node_state_of node
        ≡ opened setup.geometry.nodes (fresh_image setup.geometry setup.index)) }
    ensures setup { IfOk result (λ node. setup_of node ≡ setup) }
    ensures running { IfOk result (λ node. shut_of node ≡ None) }
    ensures sound { IfOk result (λ node. IsReady D.tells D.history D.health disk
        → IsOnDisk D.tells D.history D.health node) }
    ensures told { IfErr result (λ refusal. Speaks D.tells D.health disk → D.tells refusal.1) }
    ensures refused { IfErr result (λ refusal. IsFreshFault refusal.0 (Fell 8 (D.health disk) (D.health refusal.1))) }
{
    let mut disk = disk;
    let memory = match fresh_memory(alloc, setup) {
        Ok(memory) => memory,
        Err(NoMemory) => return Err((NodeFault::NoMemory, disk)),
    };
    if let Err(fault) = lay_fresh(alloc, &mut disk, setup) {
        return Err((fault, disk));
    }
    match empty_log(alloc, disk, log_at(Side::First)) {
        Ok(log) => Ok(MemNode {
            alloc,
            memory,
            log,
            shut: None,
        }),
        Err(refusal) => Err(refusal),
    }
}
