ghost use Rattle.std.specs.Prelude.{◌≡◌, ◌≤◌, ◌<◌, ◌^◌, length, Ok, IfErr, OnOk};
ghost use Rattle.disk_model.specs.LogBytes.{log_bytes};
ghost use Rattle.mini_tx.specs.EntryReading.{entry_of};
ghost use Rattle.mem_node.specs.Disk.{Makes, IsUnfit, IsReplayFault};
ghost use Rattle.mem_rules.specs.Fit.{IsFit};
ghost use Rattle.mem_rules.specs.Memory.{state_of, setup_in};
ghost use Rattle.mem_rules.specs.State.{opened, after_entry};

use crate::node_fault::NodeFault;
use mem_rules::Memory;
use mini_tx::{Bytes, EntryFault, read_entry};
use std::alloc::Global;

/// The bytes before an entry in a log: its gate and its length.
const HEADER_BYTES: u64 = 5;

/// Takes the entry of these bytes, whose gate stands at this place.
fn take(alloc: Global, memory: &mut Memory, bytes: &[u8], at: u64) -> Result<(), NodeFault>
    ensures refused { IfErr result (λ fault. IsReplayFault fault
        (λ place. (place ≡ at) × ((e : _) → entry_of bytes.now ≡ Ok e → IsFit (setup_in memory.old) (state_of memory.old) e → ⊥))) }
    ensures taken { OnOk result ((e : _) × (entry_of bytes.now ≡ Ok e) × IsFit (setup_in memory.old) (state_of memory.old) e
        × (state_of memory.new ≡ after_entry (state_of memory.old) e)) }
    ensures setup { setup_in memory.new ≡ setup_in memory.old }
{
    let entry = match read_entry(alloc, bytes) {
        Ok(entry) => entry,
        Err(EntryFault::Bad) => return Err(NodeFault::Damaged { at }),
        Err(EntryFault::NoMemory) => return Err(NodeFault::NoMemory),
    };
    if !memory.allows(&entry) {
        return Err(NodeFault::Damaged { at });
    }
    let room = memory.reserve(&entry)?;
    memory.settle(entry, room);
    Ok(())
}

/// Takes all entries of a log that begins at this place, in order.
pub(crate) fn replay(
    alloc: Global,
    memory: &mut Memory,
    base: u64,
    entries: &[Bytes],
) -> Result<(), NodeFault>
    requires base { base ≤ 2 ^ 33 }
    requires within { length (log_bytes entries.now) < 2 ^ 32 }
    requires fresh { state_of memory.old ≡ opened (setup_in memory.old).geometry.nodes (state_of memory.old).image }
    ensures refused { IfErr result (λ fault. IsReplayFault fault
        (IsUnfit (setup_in memory.old) base (state_of memory.old).image entries.now)) }
    ensures made { OnOk result (Makes (setup_in memory.old) (state_of memory.old).image entries.now (state_of memory.new)) }
    ensures setup { setup_in memory.new ≡ setup_in memory.old }
{
    let mut at = base;
    for bytes in entries {
        take(alloc, memory, bytes.as_slice(), at)?;
        at += HEADER_BYTES + bytes.len() as u64;
    }
    Ok(())
}
