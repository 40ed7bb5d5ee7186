ghost use Rattle.std.specs.Prelude.{◌≡◌, ◌≢◌, ◌⊎◌, ◌↔◌, ◌≤◌, ◌∷◌, [], ◌++◌, ℕ, List, false, Some, IsTrue, IfOk, OnOk, IsErrOf};
ghost use Rattle.disk_model.specs.Health.{FailedFor};
ghost use Rattle.disk_model.specs.Stop.{disk_below, left_of};
ghost use Rattle.gate_log.specs.Log.{base_of, disk_of, has_failed, IsLog};

use disk_model::{Bytes, Calls, Change, Choice, Disk, Entries, PlanDisk, Stop};
use gate_log::{BootCell, Log, LogFault};
use std::alloc::Global;
use std::test::*;

fn blank(rt: &HostRuntime) -> PlanDisk {
    PlanDisk::new(rt.alloc(), Calls::new(rt.alloc()))
}

/// The log at the start of a disk.
fn loaded<D: Disk + Drop>(alloc: Global, disk: D) -> Result<(Log<D>, Entries), LogFault> {
    match Log::load(alloc, disk, 0) {
        Ok(loaded) => Ok(loaded),
        Err((fault, _)) => Err(fault),
    }
}

fn entries_of(alloc: Global, entries: &[&[u8]]) -> Result<Entries, Fail> {
    let mut list = Entries::new(alloc);
    for entry in entries {
        list.push(Bytes::from_slice(alloc, entry)?)?;
    }
    Ok(list)
}

/// Appends an entry, and restarts the disk and loads the log whatever was answered: it has the entries
/// before, or those and the new one.
fn recovered<D: Disk + Drop>(
    alloc: Global,
    mut log: Log<D>,
    entry: &[u8],
    choice: Choice,
) -> Result<Entries, LogFault>
    ensures { (entries : List (List ℕ)) → base_of log ≡ 0 → IsLog D.tells D.history D.health log entries
        → IfOk result (λ found. (found ≡ entries) ⊎ (found ≡ entries ++ entry.now ∷ [])) }
{
    let _answer = log.append(entry);
    let mut disk = log.into_disk();
    disk.restart(choice)?;
    match Log::load(alloc, disk, 0) {
        Ok((_log, entries)) => Ok(entries),
        Err((fault, _disk)) => Err(fault),
    }
}

/// Appends an entry under a stop: the answer, and whether the stop was reached.
fn stopped_append<D: Disk>(
    log: &mut Log<Stop<D>>,
    entry: &[u8],
    calls: u32,
) -> (Result<(), LogFault>, bool)
    requires { left_of (disk_of log.old) ≢ Some 0 }
    ensures passed { OnOk result.0 ((4 ≤ calls) × (IsTrue result.1 ↔ (calls ≡ 4))) }
    ensures reached { IsErrOf result.0 LogFault.Failed → IsTrue result.1 → calls ≤ 4 }
    ensures own { has_failed log.old ≡ false → IsErrOf result.0 LogFault.Failed → result.1 ≡ false
        → FailedFor (D.health (disk_below (disk_of log.old))).faults (D.health (disk_below (disk_of log.new))).faults
        (D.health (disk_below (disk_of log.new))).is_starved }
{
    log.stop_after(Some(calls));
    let answer = log.append(entry);
    (answer, log.stopped())
}

#[test]
fn an_append_is_four_calls(rt: HostRuntime) -> Result<(), Fail> {
    let (mut log, _) = loaded(rt.alloc(), blank(&rt))?;
    assert_eq!(rt; log.append(b"\xaa\xbb"), Ok(()));
    assert!(rt; !log.starved());
    let disk = log.into_disk();
    let changes = [
        Change::Wrote {
            at: 1,
            bytes: Bytes::from_slice(rt.alloc(), b"\0\0\0\x02\xaa\xbb\0")?,
        },
        Change::Synced,
        Change::Wrote {
            at: 0,
            bytes: Bytes::from_slice(rt.alloc(), &[1])?,
        },
        Change::Synced,
    ];
    assert_eq!(rt; disk.changes(), changes.as_slice());
    Ok(())
}

#[test]
fn a_crash_in_an_append_leaves_the_entry_or_none(rt: HostRuntime) -> Result<(), Fail> {
    let (log, _) = loaded(rt.alloc(), blank(&rt))?;
    let found = recovered(rt.alloc(), log, b"one", Choice::Old)?;
    assert!(rt; found == entries_of(rt.alloc(), &[b"one"])?);
    // The sync behind the opened gate fails.
    let disk = PlanDisk::new(rt.alloc(), Calls::from_slice(rt.alloc(), &[5])?);
    let (log, _) = loaded(rt.alloc(), disk)?;
    assert!(rt; recovered(rt.alloc(), log, b"one", Choice::Old)?.is_empty());
    Ok(())
}

#[test]
fn a_stop_is_reached_by_the_call_that_is_stated(rt: HostRuntime) -> Result<(), Fail> {
    let (mut log, _) = loaded(rt.alloc(), Stop::new(blank(&rt)))?;
    assert!(rt; !log.stopped());
    let failed = Err(LogFault::Failed);
    assert_eq!(rt; stopped_append(&mut log, b"one", 3), (failed, true));
    assert_eq!(rt; log.append(b"two"), failed);
    Ok(())
}

#[test]
fn a_log_is_read_again(rt: HostRuntime) -> Result<(), Fail> {
    let (mut log, _) = loaded(rt.alloc(), blank(&rt))?;
    assert_eq!(rt; log.append(b"one"), Ok(()));
    assert_eq!(rt; log.append(b""), Ok(()));
    let (_, entries) = loaded(rt.alloc(), log.into_disk())?;
    assert!(rt; entries == entries_of(rt.alloc(), &[b"one", b""])?);
    Ok(())
}

#[test]
fn a_gate_that_ends_past_the_limit_is_damaged(rt: HostRuntime) -> Result<(), Fail> {
    let mut disk = blank(&rt);
    let bytes = b"\x01\0\0\0\x01a\x01\xff\xff\xff\xf5";
    assert_eq!(rt; disk.write(0, bytes), Ok(()));
    let refused = loaded(rt.alloc(), disk).err();
    assert_eq!(rt; refused, Some(LogFault::Damaged { at: 6 }));
    Ok(())
}

#[test]
fn boot_numbers_grow(rt: HostRuntime) -> Result<(), Fail> {
    let mut cell = BootCell::new(blank(&rt));
    assert_eq!(rt; cell.next_boot(), Ok(1));
    assert!(rt; !cell.starved());
    let mut disk = cell.into_disk();
    assert_eq!(rt; disk.restart(Choice::Old), Ok(()));
    let mut cell = BootCell::new(disk);
    assert_eq!(rt; cell.next_boot(), Ok(2));
    Ok(())
}

#[test]
fn refusals_are_printed_in_words(rt: HostRuntime) -> Result<(), Fail> {
    let damaged = LogFault::Damaged { at: 6 };
    assert_eq!(rt;
        format!(in rt.alloc(); "{damaged}")?.as_str(),
        "the log is damaged at 6"
    );
    Ok(())
}
