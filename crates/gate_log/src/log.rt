ghost use Rattle.std.specs.Prelude.{◌≡◌, ◌≢◌, ◌⊎◌, ◌↔◌, ◌+◌, ◌^◌, ◌<◌, ◌≤◌, ℕ, true, false, [], ◌∷◌, ◌++◌, List, length, Some, IsTrue, IfOk, IfErr, OnOk, OnErr, IsErrOf};
ghost use Rattle.disk_model.specs.Calls.{IsReady};
ghost use Rattle.disk_model.specs.Crash.{LeavesOnly, put, settled};
ghost use Rattle.disk_model.specs.Health.{Fell, Hands, IsLive, Passed, Speaks, count_after};
ghost use Rattle.disk_model.specs.LogBytes.{log_bytes, IsDamaged};
ghost use Rattle.gate_log.specs.Append.{IsAppending, Opens};
ghost use Rattle.gate_log.specs.Fault.{IsLoadFault, IsAppendFault};

use crate::extent::Extent;
use crate::layout::{HEADER_BYTES, OPEN, is_full, seal};
use crate::log_fault::LogFault;
use crate::scan::scan;
use crate::through::write_through;
use disk_model::{Disk, Entries, Stop};
use sfs_base::Failed;
use std::alloc::Global;

/// A log of entries on a disk.
#[derive(Debug, Drop)]
pub struct Log<D: Disk> {
    alloc: Global,
    disk: D,
    extent: Extent,
    /// An append failed.
    failed: bool,
}

impl<D: Disk> Log<D> {
    ghost use Rattle.gate_log.specs.Log.{disk_of, base_of, end_of, has_failed, IsLog};

    /// Finds the entries of the log that begins at the place `base` of this disk, in order. Nothing may
    /// be pending on the disk. It is read in pieces of 64 KiB. A refused call hands the disk back.
    /// [`LogFault::Failed`]: the disk failed. [`LogFault::Damaged`]: an open gate stands there whose entry
    /// would end past the limit. [`LogFault::NoMemory`]: there is no memory for the entries, or a piece.
    pub fn load(alloc: Global, disk: D, base: u64) -> Result<(Log<D>, Entries), (LogFault, D)>
        requires { base + 2 ^ 32 < 2 ^ 64 }
        ensures entries { IfOk result (λ loaded. IsReady D.tells D.history D.health disk
            → IsLog D.tells D.history D.health loaded.0 loaded.1) }
        ensures base { IfOk result (λ loaded. base_of loaded.0 ≡ base) }
        ensures ready { IfOk result (λ loaded. has_failed loaded.0 ≡ false) }
        ensures end { IfOk result (λ loaded. end_of loaded.0 ≡ length (log_bytes loaded.1)) }
        ensures within { IfOk result (λ loaded. length (log_bytes loaded.1) < 2 ^ 32) }
        ensures refused { IfErr result (λ refusal. IsLoadFault refusal.0
            (Fell 0 (D.health disk) (D.health refusal.1)) (Passed 0 (D.health disk) (D.health refusal.1))
            (λ at. Speaks D.tells D.health disk → IsDamaged (D.history disk).now.content base at)) }

        // The disk is as it was, so a crash at any moment of the call leaves what it left before.
        ensures same { IfOk result (λ loaded. Speaks D.tells D.health disk
            → Speaks D.tells D.health (disk_of loaded.0) × (D.history (disk_of loaded.0) ≡ D.history disk)) }
        ensures same_err { IfErr result (λ refusal. Speaks D.tells D.health disk
            → D.tells refusal.1 × (D.history refusal.1 ≡ D.history disk)) }
        ensures passed { IfOk result (λ loaded. Passed 0 (D.health disk) (D.health (disk_of loaded.0))) }
        ensures live { OnOk result (IsLive 0 (D.health disk)) }
    {
        let mut disk = disk;
        match scan(alloc, &mut disk, base) {
            Ok(scanned) => Ok((
                Log {
                    alloc,
                    disk,
                    extent: Extent {
                        base,
                        end: scanned.end,
                    },
                    failed: false,
                },
                scanned.entries,
            )),
            Err(fault) => Err((fault, disk)),
        }
    }

    /// How far its closed gate lies from its start, in bytes. It takes no memory.
    pub fn len(&self) -> u64
        ensures { result ≡ end_of self.now }
    {
        self.extent.end
    }

    /// The disk. It touches no byte, and takes no memory.
    pub fn into_disk(self) -> D
        ensures { result ≡ disk_of self }
    {
        self.disk
    }

    /// Whether the disk once found no memory. It takes no memory.
    pub fn starved(&self) -> bool
        ensures { result ≡ (D.health (disk_of self.now)).is_starved }
    {
        self.disk.starved()
    }

    /// Adds an entry at the end: its bytes behind the closed gate, and once they are safe the gate is
    /// opened, which takes two writes and two syncs, and no other call. Where it succeeds, each crash from
    /// then on leaves the entry. [`LogFault::Full`]: the gate behind the entry would lie at the limit or past
    /// it. [`LogFault::Failed`]: the disk failed in this call or an earlier one; the log answers this until
    /// it is loaded again. [`LogFault::NoMemory`]: there is no memory for the entry's bytes.
    pub fn append(&mut self, entry: &[u8]) -> Result<(), LogFault>
        ensures appended { OnOk result ((entries : List (List ℕ)) → IsLog D.tells D.history D.health self.old entries
            → IsLog D.tells D.history D.health self.new (entries ++ entry.now ∷ [])) }

        // A crash at any moment of the call leaves the entries before it, or those and the new one, and all
        // bytes outside the log as they are.
        ensures any_moment { (entries : List (List ℕ)) → IsLog D.tells D.history D.health self.old entries
            → LeavesOnly (D.history (disk_of self.old)) (D.history (disk_of self.new))
            (IsAppending (base_of self.old) entries entry.now (D.history (disk_of self.old)).now.content) }

        // After each answer the disk still tells what it holds, so it may be restarted and the log loaded.
        ensures still { Speaks D.tells D.health (disk_of self.old) → D.tells (disk_of self.new) }

        ensures full { IsErrOf result LogFault.Full
            ↔ ((has_failed self.old ≡ false) × (2 ^ 32 ≤ end_of self.old + 5 + length entry.now)) }
        ensures failed { IsErrOf result LogFault.Failed → (has_failed self.old ≡ true)
            ⊎ Fell 4 (D.health (disk_of self.old)) (D.health (disk_of self.new)) }
        ensures shut { IsErrOf result LogFault.Failed → has_failed self.new ≡ true }
        ensures stays_shut { has_failed self.old ≡ true → IsErrOf result LogFault.Failed × (self.new ≡ self.old) }
        ensures refused { OnErr result (IsErrOf result LogFault.Failed ⊎ (self.new ≡ self.old)) }
        ensures not_damaged { IfErr result IsAppendFault }
        ensures fine { OnOk result (has_failed self.new ≡ false) }
        ensures base { base_of self.new ≡ base_of self.old }
        ensures end { OnOk result (end_of self.new ≡ end_of self.old + 5 + length entry.now) }
        ensures end_err { OnErr result (end_of self.new ≡ end_of self.old) }
        ensures passed { OnOk result (Passed 4 (D.health (disk_of self.old)) (D.health (disk_of self.new))) }
        ensures live { OnOk result (IsLive 4 (D.health (disk_of self.old))) }
        ensures calls { OnOk result ((D.health (disk_of self.new)).calls
            ≡ count_after 4 (D.health (disk_of self.old)).calls) }
    {
        if self.failed {
            return Err(LogFault::Failed);
        }
        let length = entry.len() as u64;
        let Extent { base, end } = self.extent;
        if is_full(end, length) {
            return Err(LogFault::Full);
        }
        let bytes = seal(self.alloc, entry)?;
        if open_behind(&mut self.disk, base + end, &bytes).is_err() {
            self.failed = true;
            return Err(LogFault::Failed);
        }
        self.extent = Extent {
            base,
            end: end + HEADER_BYTES + length,
        };
        Ok(())
    }
}

impl<D: Disk> Log<Stop<D>> {
    ghost use Rattle.disk_model.specs.Stop.{left_of};
    ghost use Rattle.gate_log.specs.Log.{disk_of};

    /// From now on this many writes and syncs pass to the disk below, or all of them. It takes no memory.
    pub fn stop_after(&mut self, calls: Option<u32>)
        requires { left_of (disk_of self.old) ≢ Some 0 }
        ensures { self.new ≡ record self.old { disk = record (disk_of self.old) { left = calls } } }
    {
        self.disk.stop_after(calls);
    }

    /// Whether the stated number of writes and syncs has returned, so that calls are refused until the
    /// disk is restarted. It takes no memory.
    pub fn stopped(&self) -> bool
        ensures { IsTrue result ↔ (left_of (disk_of self.now) ≡ Some 0) }
    {
        self.disk.stopped()
    }
}

/// Writes these bytes behind a gate, and opens it.
fn open_behind<D: Disk>(disk: &mut D, gate: u64, bytes: &[u8]) -> Result<(), Failed>
    requires { gate + 1 + length bytes.now < 2 ^ 64 }
    ensures hands { Hands D.tells D.health 4 disk.old disk.new result }
    ensures calls { OnOk result ((D.health disk.new).calls ≡ count_after 4 (D.health disk.old).calls) }
    ensures ok { OnOk result (Speaks D.tells D.health disk.old → (D.history disk.new).now
        ≡ settled (put (put (D.history disk.old).now.content (gate + 1) bytes.now) gate (1 ∷ []))) }
    ensures any_moment { Speaks D.tells D.health disk.old
        → LeavesOnly (D.history disk.old) (D.history disk.new) (Opens (D.history disk.old).now gate bytes.now) }
{
    write_through(disk, gate + 1, bytes)?;
    write_through(disk, gate, &[OPEN])
}
