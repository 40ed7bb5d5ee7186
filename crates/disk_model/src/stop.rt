ghost use Rattle.std.specs.Prelude.{◌≡◌, ◌≢◌, ◌+◌, ◌-◌, ◌^◌, ◌<◌, ◌≤◌, ◌↔◌, min, false, true, None, Some, IsTrue, IsErr, OnOk, OnErr, length};
ghost use Rattle.disk_model.specs.Calls.{IsRead, IsWrite, IsSync, IsRestart};
ghost use Rattle.disk_model.specs.Health.{less};

use crate::choice::Choice;
use crate::disk::Disk;
use sfs_base::Failed;

/// A disk that passes a stated number of writes and syncs on to another one, and then fails at every
/// call, counting it, until a restart. A call that it refuses reaches no disk.
#[derive(Debug, Drop)]
pub struct Stop<D: Disk> {
    disk: D,
    /// How many writes and syncs may pass, where they are counted.
    left: Option<u32>,
    /// How many calls were refused so far; it stands still at the last value of a u64.
    refused: u64,
    /// A call was refused, and no restart succeeded since.
    refusing: bool,
}

impl<D: Disk> Stop<D> {
    ghost use Rattle.disk_model.specs.Stop.{disk_below, left_of};

    /// A stop that lets all calls pass to this disk. It takes no memory.
    pub fn new(disk: D) -> Stop<D>
        ensures { result ≡ record { disk = disk; left = None; refused = 0; refusing = false } }
    {
        Stop {
            disk,
            left: None,
            refused: 0,
            refusing: false,
        }
    }

    /// The disk. It takes no memory.
    pub fn into_disk(self) -> D
        ensures { result ≡ disk_below self }
    {
        self.disk
    }

    /// From now on this many writes and syncs pass, or all of them. It takes no memory.
    pub fn stop_after(&mut self, calls: Option<u32>)
        requires { left_of self.old ≢ Some 0 }
        ensures { self.new ≡ record self.old { left = calls } }
    {
        self.left = calls;
    }

    /// Whether the stated number of writes and syncs has returned, so that calls are refused until a
    /// restart. It takes no memory.
    pub fn stopped(&self) -> bool
        ensures { IsTrue result ↔ (left_of self.now ≡ Some 0) }
    {
        self.left == Some(0)
    }

    /// Counts a refused call.
    fn refuse(&mut self) -> Result<(), Failed>
        ensures failed { IsErr result }
        ensures rose { min (self.old.refused + 1) (2 ^ 64 - 1) ≤ self.new.refused }
        ensures later { self.old.refused ≤ self.new.refused }
        ensures rest { self.new ≡ record self.old { refused = self.new.refused; refusing = true } }
    {
        self.refused = self.refused.saturating_add(1);
        self.refusing = true;
        Err(Failed)
    }

    /// Counts a write or a sync that returned.
    fn count(&mut self)
        ensures { self.new ≡ record self.old { left = less 1 self.old.left } }
    {
        self.left = match self.left {
            Some(calls) => Some(calls.saturating_sub(1)),
            None => None,
        };
    }
}

impl<D: Disk> Disk for Stop<D> {
    ghost use Rattle.disk_model.specs.Stop.{disk_below, left_of, stop_tells, stop_history, stop_health};

    ghost tells = { stop_tells D.Disk.tells };

    ghost history = { stop_history D.Disk.history };

    ghost health = { stop_health D.Disk.health };

    /// Beside what each disk owes: a call is refused just where the stated number has returned, reaches no
    /// disk then, and else is the call of the disk below.
    fn read(&mut self, at: u64, into: &mut [u8]) -> Result<(), Failed>
        requires { at + length into.old < 2 ^ 64 }
        ensures disk { IsRead (stop_tells D.Disk.tells) (stop_history D.Disk.history) (stop_health D.Disk.health)
            self.old self.new at into.new result }

        ensures passes { left_of self.old ≢ Some 0 → IsRead D.Disk.tells D.Disk.history D.Disk.health
            (disk_below self.old) (disk_below self.new) at into.new result }
        ensures refuses { left_of self.old ≡ Some 0 → IsErr result × (disk_below self.new ≡ disk_below self.old) }
        ensures left { left_of self.new ≡ left_of self.old }
    {
        if self.stopped() {
            return self.refuse();
        }
        self.disk.read(at, into)
    }

    /// Beside what each disk owes: as for a read, and a call that returned is counted.
    fn write(&mut self, at: u64, from: &[u8]) -> Result<(), Failed>
        requires { at + length from.now < 2 ^ 64 }
        ensures disk { IsWrite (stop_tells D.Disk.tells) (stop_history D.Disk.history) (stop_health D.Disk.health)
            self.old self.new at from.now result }

        ensures passes { left_of self.old ≢ Some 0 → IsWrite D.Disk.tells D.Disk.history D.Disk.health
            (disk_below self.old) (disk_below self.new) at from.now result }
        ensures refuses { left_of self.old ≡ Some 0 → IsErr result × (disk_below self.new ≡ disk_below self.old) }
        ensures left { left_of self.new ≡ less 1 (left_of self.old) }
    {
        if self.stopped() {
            return self.refuse();
        }
        let result = self.disk.write(at, from);
        self.count();
        result
    }

    /// Beside what each disk owes: as for a write.
    fn sync(&mut self) -> Result<(), Failed>
        ensures disk { IsSync (stop_tells D.Disk.tells) (stop_history D.Disk.history) (stop_health D.Disk.health)
            self.old self.new result }

        ensures passes { left_of self.old ≢ Some 0 → IsSync D.Disk.tells D.Disk.history D.Disk.health
            (disk_below self.old) (disk_below self.new) result }
        ensures refuses { left_of self.old ≡ Some 0 → IsErr result × (disk_below self.new ≡ disk_below self.old) }
        ensures left { left_of self.new ≡ less 1 (left_of self.old) }
    {
        if self.stopped() {
            return self.refuse();
        }
        let result = self.disk.sync();
        self.count();
        result
    }

    /// Beside what each disk owes: it always reaches the disk with the same choice, and lets all calls pass
    /// where it succeeds.
    fn restart(&mut self, choice: Choice) -> Result<(), Failed>
        ensures disk { IsRestart (stop_tells D.Disk.tells) (stop_history D.Disk.history) (stop_health D.Disk.health)
            self.old self.new choice result }

        ensures passes { IsRestart D.Disk.tells D.Disk.history D.Disk.health
            (disk_below self.old) (disk_below self.new) choice result }
        ensures passing { OnOk result (left_of self.new ≡ None) }
        ensures stays { OnErr result (left_of self.new ≡ left_of self.old) }
    {
        self.disk.restart(choice)?;
        self.left = None;
        self.refusing = false;
        Ok(())
    }

    fn starved(&self) -> bool {
        self.disk.starved()
    }
}
