ghost use Rattle.std.specs.Prelude.{◌≡◌, ℕ, Bool, true, false, Option, Some, ◌==◌, ◌||◌, if◌then◌else◌, IfOk, OnOk, OnErr};
ghost use Rattle.sfs_base.specs.Fault.{HasCause};
ghost use Rattle.disk_model.specs.Shelf.{IsAtRest};

use crate::disk::Disk;
use sfs_base::Failed;

/// Where the disks of a cluster lie, each with a number, while no one uses them.
pub trait Shelf {
    /// What kind of disks lie there.
    type D: Disk;

    /// The shelf tells which disks lie on it.
    ghost tells: { Self → Type 0 };

    /// The disk of each number that lies there.
    ghost disks: { Self → ℕ → Option Self.D };

    /// The disk of this number was taken, and not given back.
    ghost is_taken: { Self → ℕ → Bool };

    /// How many calls failed so far; it stands still at the last value of a u64.
    ghost faults: { Self → ℕ };

    /// Takes the disk of this number away just as it lies there. Nothing is pending on it and it may be
    /// used, which is the caller's condition where the shelf tells its disks. A shelf that tells has disks
    /// that tell. [`Failed`]: the shelf could not, its count of faults rose, and all disks lie where they
    /// did.
    fn take(&mut self, k: u32) -> Result<Self::D, Failed>
        requires { tells self.old → (disk : Self.D) → disks self.old k ≡ Some disk
            → IsAtRest Self.D.history Self.D.health disk }
        ensures cause { HasCause (faults self.old) (faults self.new) result }
        ensures tells { tells self.old → tells self.new }
        ensures told_before { tells self.new → tells self.old }
        ensures given { IfOk result (λ disk. tells self.old → disks self.old k ≡ Some disk) }
        ensures told { IfOk result (λ disk. tells self.old → Self.D.tells disk) }
        ensures rests { IfOk result (λ disk. Self.D.tells disk → IsAtRest Self.D.history Self.D.health disk) }
        ensures rest { OnOk result (tells self.old
            → (j : ℕ) → disks self.new j ≡ (if j == k then None else disks self.old j)) }
        ensures taken { OnOk result ((j : ℕ) → is_taken self.new j ≡ (j == k || is_taken self.old j)) }
        ensures kept { OnErr result (tells self.old → (j : ℕ) → disks self.new j ≡ disks self.old j) }
        ensures left { OnErr result ((j : ℕ) → is_taken self.new j ≡ is_taken self.old j) };

    /// Lays a disk that was taken back at its number. It takes no memory.
    fn give(&mut self, k: u32, disk: Self::D)
        requires taken { is_taken self.old k ≡ true }
        requires told { tells self.old → Self.D.tells disk }
        ensures tells { tells self.old → tells self.new }
        ensures told_before { tells self.new → tells self.old }
        ensures given { tells self.old → (j : ℕ) → disks self.new j ≡ (if j == k then Some disk else disks self.old j) }
        ensures taken { (j : ℕ) → is_taken self.new j ≡ (if j == k then false else is_taken self.old j) }
        ensures faults { faults self.new ≡ faults self.old };
}
