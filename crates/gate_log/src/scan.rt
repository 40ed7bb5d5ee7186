ghost use Rattle.std.specs.Prelude.{◌≡◌, ◌+◌, ◌^◌, ◌<◌, length, OnOk, IfOk};
ghost use Rattle.disk_model.specs.Crash.{Holds};
ghost use Rattle.disk_model.specs.Health.{IsLive, Speaks};
ghost use Rattle.disk_model.specs.LogBytes.{log_bytes, StandsFor, IsBadGate, IsDamaged};
ghost use Rattle.gate_log.specs.Scan.{IsNextEntry, EntryEndsBelow, Reads};
ghost use Rattle.gate_log.specs.Window.{IsCurrent};

use crate::gate::Gate;
use crate::layout::{HEADER_BYTES, MAX_LOG_BYTES};
use crate::log_fault::LogFault;
use crate::window::Window;
use disk_model::{Disk, Entries};
use sfs_base::Bytes;
use std::alloc::Global;

/// The entries of a log, and how far from its start the closed gate is.
#[derive(Drop)]
pub(crate) struct Scanned {
    pub(crate) entries: Entries,
    pub(crate) end: u64,
}

/// The entry of this length behind a gate, of which these are the bytes that were read, or else from the
/// disk.
fn entry_behind<D: Disk>(
    alloc: Global,
    disk: &mut D,
    gate: u64,
    read: &[u8],
    size: u32,
) -> Result<Bytes, LogFault>
    requires { gate + 5 + size < 2 ^ 64 }
    ensures reads { Reads D.tells D.history D.health disk.old disk.new (λ at. ⊥) result }
    ensures long { IfOk result (λ entry. length entry ≡ size) }
    ensures held { IfOk result (λ entry. Speaks D.tells D.health disk.old
        → Holds (D.history disk.old).now.content gate read.now
        → Holds (D.history disk.old).now.content (gate + 5) entry) }
{
    let header = HEADER_BYTES as usize;
    let size = size as usize;
    if header <= read.len() && size <= read.len() - header {
        return Ok(Bytes::from_slice(alloc, &read[header..header + size])?);
    }
    let mut bytes = vec![in alloc; 0; size]?;
    disk.read(gate + HEADER_BYTES, &mut bytes)?;
    Ok(Bytes::from(bytes))
}

/// Reads the entry behind the gate at this distance from the start, if that gate is open.
fn next_entry<D: Disk>(
    alloc: Global,
    disk: &mut D,
    window: &mut Window,
    base: u64,
    end: u64,
) -> Result<Option<Bytes>, LogFault>
    requires base { base + 2 ^ 32 < 2 ^ 64 }
    requires end { end < 2 ^ 32 }
    ensures reads { Reads D.tells D.history D.health disk.old disk.new
        (λ at. (at ≡ base + end) × (Speaks D.tells D.health disk.old
        → IsCurrent (D.history disk.old).now.content window.old
        → IsBadGate (D.history disk.old).now.content at end)) result }
    ensures found { IfOk result (λ next. Speaks D.tells D.health disk.old
        → IsCurrent (D.history disk.old).now.content window.old
        → IsNextEntry (D.history disk.old).now.content (base + end) next) }
    ensures below { IfOk result (λ next. EntryEndsBelow end next) }
    ensures current { OnOk result (Speaks D.tells D.health disk.old
        → IsCurrent (D.history disk.old).now.content window.old
        → IsCurrent (D.history disk.old).now.content window.new) }
{
    let gate = base + end;
    window.reach(alloc, disk, gate, base + MAX_LOG_BYTES)?;
    let read = window.from(gate);
    match Gate::at(end, read) {
        Gate::Closed => Ok(None),
        Gate::Damaged => Err(LogFault::Damaged { at: gate }),
        Gate::Open(length) => Ok(Some(entry_behind(alloc, disk, gate, read, length)?)),
    }
}

/// Reads the log that begins at this place.
pub(crate) fn scan<D: Disk>(alloc: Global, disk: &mut D, base: u64) -> Result<Scanned, LogFault>
    requires { base + 2 ^ 32 < 2 ^ 64 }
    ensures reads { Reads D.tells D.history D.health disk.old disk.new
        (λ at. Speaks D.tells D.health disk.old → IsDamaged (D.history disk.old).now.content base at) result }
    ensures live { OnOk result (IsLive 0 (D.health disk.old)) }
    ensures found { IfOk result (λ scanned. Speaks D.tells D.health disk.old
        → StandsFor (D.history disk.old).now.content base scanned.entries) }
    ensures end { IfOk result (λ scanned. scanned.end ≡ length (log_bytes scanned.entries)) }
    ensures within { IfOk result (λ scanned. scanned.end < 2 ^ 32) }
{
    let mut entries = Entries::new(alloc);
    let mut end = 0;
    let mut window = Window::read(alloc, disk, base, base + MAX_LOG_BYTES)?;
    while let Some(entry) = next_entry(alloc, disk, &mut window, base, end)? {
        end += HEADER_BYTES + entry.len() as u64;
        entries.push(entry)?;
    }
    Ok(Scanned { entries, end })
}
