ghost use Rattle.std.specs.Prelude.{◌≡◌, ◌≤◌, ◌^◌, ◌<◌, ℕ, false, [], None, length, vec_len, IfOk, IfErr};
ghost use Rattle.disk_model.specs.Calls.{IsReady};
ghost use Rattle.disk_model.specs.Crash.{Holds};
ghost use Rattle.disk_model.specs.Health.{Fell, Passed, Speaks};
ghost use Rattle.disk_model.specs.LogBytes.{log_bytes, IsDamaged};
ghost use Rattle.gate_log.specs.Log.{IsLog, base_of, has_failed, disk_of};
ghost use Rattle.mem_node.specs.Disk.{IsLoadFault, IsReplayFault, IsUnfit, IsBrokenLog, Makes};
ghost use Rattle.node_disk.specs.Half.{log_at};
ghost use Rattle.mem_rules.specs.Fit.{IsSetup, size_of};
ghost use Rattle.mem_rules.specs.Memory.{state_of};
ghost use Rattle.mem_node.specs.Node.{log_of, setup_of, shut_of, node_state_of, node_disk_of, IsOn};

use crate::load::{Stored, taken};
use crate::mem_node::MemNode;
use crate::node_fault::NodeFault;
use disk_model::{Disk, Entries};
use gate_log::Log;
use mem_rules::Setup;
use node_disk::log_at;
use std::alloc::Global;

/// The memory node with what is stored beside its log, and the log of this disk.
pub(crate) fn load_log<D: Disk>(
    alloc: Global,
    disk: D,
    setup: Setup,
    stored: Stored,
) -> Result<MemNode<D>, (NodeFault, D)>
    requires setup { IsSetup setup }
    requires sized { vec_len stored.image ≡ size_of setup }
    ensures made { IfOk result (λ node. IsReady D.tells D.history D.health disk
        → IsOn D.tells D.history D.health node stored.image.items) }
    ensures based { IfOk result (λ node. base_of (log_of node) ≡ log_at stored.half) }
    ensures setup { IfOk result (λ node. setup_of node ≡ setup) }
    ensures running { IfOk result (λ node. shut_of node ≡ None) }
    ensures refused { IfErr result (λ refusal. IsLoadFault refusal.0
        (Fell 0 (D.health disk) (D.health refusal.1)) (Passed 0 (D.health disk) (D.health refusal.1)) ⊥
        (λ at. IsReady D.tells D.history D.health disk
        → IsBrokenLog setup (D.history disk).now.content stored.half stored.image.items at)) }
    ensures same { IfOk result (λ node. Speaks D.tells D.health disk
        → D.tells (node_disk_of node) × (D.history (node_disk_of node) ≡ D.history disk)) }
    ensures same_err { IfErr result (λ refusal. Speaks D.tells D.health disk
        → D.tells refusal.1 × (D.history refusal.1 ≡ D.history disk)) }
    ensures passed { IfOk result (λ node. Passed 0 (D.health disk) (D.health (node_disk_of node))) }
{
    let Stored { half, image } = stored;
    let base = log_at(half);
    match Log::load(alloc, disk, base) {
        Ok((log, entries)) => replayed(alloc, log, base, &entries, setup, image),
        Err((fault, disk)) => Err((NodeFault::from(fault), disk)),
    }
}

/// The memory node with this stored image, a log that begins at this place, and its entries.
fn replayed<D: Disk>(
    alloc: Global,
    log: Log<D>,
    base: u64,
    entries: &Entries,
    setup: Setup,
    image: Vec<u8>,
) -> Result<MemNode<D>, (NodeFault, D)>
    requires setup { IsSetup setup }
    requires sized { vec_len image ≡ size_of setup }
    requires base { base ≤ 2 ^ 33 }
    requires within { length (log_bytes entries.now) < 2 ^ 32 }
    requires ready { has_failed log ≡ false }
    ensures made { IfOk result (λ node. Makes setup image.items entries.now (node_state_of node)) }
    ensures log { IfOk result (λ node. log_of node ≡ log) }
    ensures setup { IfOk result (λ node. setup_of node ≡ setup) }
    ensures running { IfOk result (λ node. shut_of node ≡ None) }
    ensures refused { IfErr result (λ refusal. IsReplayFault refusal.0 (IsUnfit setup base image.items entries.now)) }
    ensures disk { IfErr result (λ refusal. refusal.1 ≡ disk_of log) }
{
    match taken(alloc, setup, image, base, entries) {
        Ok(memory) => Ok(MemNode {
            alloc,
            memory,
            log,
            shut: None,
        }),
        Err(fault) => Err((fault, log.into_disk())),
    }
}
