ghost use Rattle.std.specs.Prelude.{◌≡◌, ◌+◌, ◌<◌, ◌^◌, ℕ, length};
ghost use Rattle.disk_model.specs.Crash.{History};
ghost use Rattle.disk_model.specs.Health.{Health};
ghost use Rattle.disk_model.specs.Calls.{IsRead, IsWrite, IsSync, IsRestart};

use crate::Choice;
use sfs_base::Failed;

/// A disk. Until a sync succeeds, a crash may leave any bytes in the ranges that were written since the
/// last one, and leaves every other byte as it is. Each call adds at most one moment to the history of
/// the disk, and what a crash may leave then covers every moment inside the call. After [`Failed`]
/// nothing is said of its bytes until a restart succeeds.
///
/// What a call does to the bytes is said for a disk that tells what it holds. An adapter over a file
/// tells nothing. What a call does to the disk's counts, and how many calls a stop still lets pass, is
/// said for every disk (`specs/Calls.antt`).
pub trait Disk {
    /// The disk tells what it holds.
    ghost tells: { Self → Type 0 };

    /// What it holds, and what it went through.
    ghost history: { Self → History };

    /// What it counts, what it still lets pass, and whether it may be used.
    ghost health: { Self → Health };

    /// Fills `into` with the bytes from the place `at` on. A place that was never written has the byte 0.
    /// [`Failed`]: the disk could not, and its count of faults rose or it is starved.
    fn read(&mut self, at: u64, into: &mut [u8]) -> Result<(), Failed>
        requires { at + length into.old < 2 ^ 64 }
        ensures { IsRead tells history health self.old self.new at into.new result };

    /// Writes the bytes `from` at the place `at` and behind it. [`Failed`]: the disk could not, and its
    /// count of faults rose or it is starved; the range is then pending at the most.
    fn write(&mut self, at: u64, from: &[u8]) -> Result<(), Failed>
        requires { at + length from.now < 2 ^ 64 }
        ensures { IsWrite tells history health self.old self.new at from.now result };

    /// Makes what was written safe: a crash leaves what a read gives. [`Failed`]: the disk could not, and
    /// its count of faults rose or it is starved; what was pending is so still, at the most.
    fn sync(&mut self) -> Result<(), Failed>
        ensures { IsSync tells history health self.old self.new result };

    /// Starts the disk anew after a crash: it holds one of the images that the crash might leave, nothing
    /// is pending, and it may be used again. An exact disk takes the image that `choice` names, as a disk
    /// in memory does. [`Failed`]: the disk could not, and its count of faults rose or it is starved.
    fn restart(&mut self, choice: Choice) -> Result<(), Failed>
        ensures { IsRestart tells history health self.old self.new choice result };

    /// Whether the disk once found no memory. It then fails at every call. It takes no memory.
    fn starved(&self) -> bool
        ensures { result ≡ (health self.now).is_starved };
}
