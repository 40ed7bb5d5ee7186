ghost use Rattle.std.specs.Prelude.{◌+◌, ◌^◌, ◌<◌};

use disk_model::{
    Bytes, Calls, Change, Choice, Disk, Failed, NoMemory, PlanDisk, PlanShelf, Shelf, Stop,
};
use std::test::*;

fn disk_of(rt: &HostRuntime, failing: &[u64]) -> Result<PlanDisk, Fail> {
    let failing = Calls::from_slice(rt.alloc(), failing)?;
    Ok(PlanDisk::new(rt.alloc(), failing))
}

/// The four bytes that a disk gives at a place.
fn four<D: Disk>(disk: &mut D, at: u64) -> Result<[u8; 4], Failed>
    requires { at + 4 < 2 ^ 64 }
{
    let mut piece = [9u8; 4];
    disk.read(at, &mut piece)?;
    Ok(piece)
}

#[test]
fn a_write_is_read_across_frames(rt: HostRuntime) -> Result<(), Fail> {
    let mut disk = disk_of(&rt, &[])?;
    assert_eq!(rt; disk.write(4094, b"abcd"), Ok(()));
    assert_eq!(rt; four(&mut disk, 4095), Ok(*b"bcd\0"));
    assert!(rt; !disk.starved());
    Ok(())
}

#[test]
fn a_disk_fails_at_the_calls_that_are_named(rt: HostRuntime) -> Result<(), Fail> {
    // The list is in no order.
    let mut disk = disk_of(&rt, &[4, 2])?;
    assert_eq!(rt; disk.write(0, b"abcd"), Ok(()));
    assert_eq!(rt; disk.sync(), Err(Failed));
    assert_eq!(rt; disk.restart(Choice::New), Ok(()));
    assert_eq!(rt; disk.write(2, b"XYZ"), Err(Failed));
    assert_eq!(rt; disk.restart(Choice::Fill(1)), Ok(()));
    assert_eq!(rt; four(&mut disk, 0), Ok(*b"ab\x01\x01"));
    assert_eq!(rt; disk.faults(), 2);
    let changes = [
        Change::Wrote {
            at: 0,
            bytes: Bytes::from_slice(rt.alloc(), b"abcd")?,
        },
        Change::Restarted(Choice::New),
        Change::Missed { at: 2, length: 3 },
        Change::Restarted(Choice::Fill(1)),
    ];
    assert_eq!(rt; disk.changes(), changes.as_slice());
    Ok(())
}

#[test]
fn a_stop_passes_as_many_calls_as_are_stated(rt: HostRuntime) -> Result<(), Fail> {
    let mut stop = Stop::new(disk_of(&rt, &[])?);
    stop.stop_after(Some(1));
    assert_eq!(rt; stop.write(0, b"abcd"), Ok(()));
    assert!(rt; stop.stopped());
    assert_eq!(rt; stop.sync(), Err(Failed));
    assert_eq!(rt; stop.restart(Choice::Fill(5)), Ok(()));
    assert!(rt; !stop.stopped());
    // A refused call reached no disk.
    let mut disk = stop.into_disk();
    assert_eq!(rt; disk.faults(), 0);
    assert_eq!(rt; four(&mut disk, 0), Ok([5; 4]));
    Ok(())
}

/// Lays a disk on a shelf.
fn lay(shelf: &mut PlanShelf, disk: PlanDisk) -> Result<(), NoMemory> {
    match shelf.push(disk) {
        Ok(()) => Ok(()),
        Err((fault, _disk)) => Err(fault),
    }
}

#[test]
fn a_shelf_refuses_the_takes_that_are_named(rt: HostRuntime) -> Result<(), Fail> {
    let failing = Calls::from_slice(rt.alloc(), &[1])?;
    let mut shelf = PlanShelf::new(rt.alloc(), failing);
    assert!(rt; shelf.take(0).is_err());
    assert_eq!(rt; shelf.faults(), 1);
    Ok(())
}

#[test]
#[tactic(auto, unfolding(disk_model::specs::Plan::history_after))]
fn a_shelf_gives_the_disks_that_lie_there(rt: HostRuntime) -> Result<(), Fail> {
    let mut shelf = PlanShelf::new(rt.alloc(), Calls::new(rt.alloc()));
    match shelf.push(PlanDisk::new(rt.alloc(), Calls::new(rt.alloc()))) {
        Ok(()) => {}
        Err((fault, _disk)) => return Err(fault.into()),
    }
    match shelf.take(0) {
        Ok(disk) => shelf.give(0, disk),
        Err(Failed) => assert!(rt; false, "the disk lies there"),
    }
    assert_eq!(rt; shelf.into_disks().len(), 1);
    Ok(())
}

#[test]
fn a_disk_on_a_shelf_may_have_pending_bytes(rt: HostRuntime) -> Result<(), Fail> {
    let mut disk = disk_of(&rt, &[1, 2])?;
    assert_eq!(rt; disk.write(0, b"abcd"), Err(Failed));
    let mut shelf = PlanShelf::new(rt.alloc(), Calls::new(rt.alloc()));
    lay(&mut shelf, disk)?;
    match shelf.into_disks().pop() {
        Some(Some(mut disk)) => {
            disk.fail_no_more();
            assert_eq!(rt; disk.restart(Choice::Old), Ok(()));
            assert_eq!(rt; four(&mut disk, 0), Ok([0; 4]));
        }
        _ => assert!(rt; false, "the disk lies there"),
    }
    Ok(())
}
