ghost use Rattle.std.specs.Prelude.{◌≡◌, ◌-◌, ◌^◌, ℕ, IfOk, OnOk, IsErrOf};
ghost use Rattle.disk_model.specs.Calls.{IsReady};
ghost use Rattle.disk_model.specs.Crash.{LeavesOnly};
ghost use Rattle.disk_model.specs.Health.{Fell, Hands, IsLive, Passed, Speaks};
ghost use Rattle.gate_log.specs.Boot.{HasBoot, IsBooting, IsNextBoot, IsSameElsewhere, IsStored};

use crate::boot_fault::BootFault;
use crate::numbers::number_of;
use crate::side::Side;
use crate::through::write_through;
use disk_model::Disk;
use sfs_base::Failed;

/// The place of the selector.
const SELECTOR: u64 = 0;

/// The boot number of a disk, which grows each time that it is asked for, whatever a crash leaves. It
/// takes no memory.
#[derive(Debug, Drop)]
pub struct BootCell<D: Disk> {
    disk: D,
}

impl<D: Disk> BootCell<D> {
    ghost use Rattle.gate_log.specs.Boot.{boot_disk_of};

    /// The boot number of this disk. It touches no byte.
    pub fn new(disk: D) -> BootCell<D>
        ensures { boot_disk_of result ≡ disk }
    {
        BootCell { disk }
    }

    /// The disk. It touches no byte.
    pub fn into_disk(self) -> D
        ensures { result ≡ boot_disk_of self }
    {
        self.disk
    }

    /// Whether the disk once found no memory.
    pub fn starved(&self) -> bool
        ensures { result ≡ (D.health (boot_disk_of self.now)).is_starved }
    {
        self.disk.starved()
    }

    /// The next boot number: above each one that was given on this disk before, also where a crash came
    /// while it was asked for. Nothing may be pending on the disk when it is handed in, and after
    /// [`BootFault::Failed`] the cell only hands its disk out. [`BootFault::Failed`]: the disk failed.
    /// [`BootFault::Spent`]: the number that was given last is the last one of a u64.
    pub fn next_boot(&mut self) -> Result<u64, BootFault>
        ensures ok { IfOk result (λ next. IsReady D.tells D.history D.health (boot_disk_of self.old)
            → IsNextBoot (D.history (boot_disk_of self.old)).now (D.history (boot_disk_of self.new)).now next) }

        // A crash at any moment of the call leaves the number that was there, or the next one, and every
        // place but the selector's and those of the two numbers as it was; so it is at the end.
        ensures any_moment { IsReady D.tells D.history D.health (boot_disk_of self.old)
            → LeavesOnly (D.history (boot_disk_of self.old)) (D.history (boot_disk_of self.new))
            (IsBooting (D.history (boot_disk_of self.old)).now.content) }
        ensures elsewhere { IsReady D.tells D.history D.health (boot_disk_of self.old)
            → IsSameElsewhere (D.history (boot_disk_of self.old)).now.content
            (D.history (boot_disk_of self.new)).now.content }

        // After each answer the disk still tells what it holds, so it may be restarted and asked again.
        ensures still { Speaks D.tells D.health (boot_disk_of self.old) → D.tells (boot_disk_of self.new) }

        ensures spent { IsErrOf result BootFault.Spent → Speaks D.tells D.health (boot_disk_of self.old)
            → HasBoot (D.history (boot_disk_of self.old)).now.content (2 ^ 64 - 1)
            × (D.history (boot_disk_of self.new) ≡ D.history (boot_disk_of self.old)) }
        ensures spent_passed { IsErrOf result BootFault.Spent
            → Passed 0 (D.health (boot_disk_of self.old)) (D.health (boot_disk_of self.new)) }
        ensures failed { IsErrOf result BootFault.Failed
            → Fell 4 (D.health (boot_disk_of self.old)) (D.health (boot_disk_of self.new)) }
        ensures passed { OnOk result (Passed 4 (D.health (boot_disk_of self.old)) (D.health (boot_disk_of self.new))) }
        ensures live { OnOk result (IsLive 4 (D.health (boot_disk_of self.old))) }
    {
        let stored = read_boot(&mut self.disk)?;
        if stored.boot == u64::MAX {
            return Err(BootFault::Spent);
        }
        let next = stored.boot + 1;
        let other = stored.side.other();
        write_through(&mut self.disk, other.place(), &next.to_be_bytes())?;
        write_through(&mut self.disk, SELECTOR, &[other.selector()])?;
        Ok(next)
    }
}

/// The side that the selector of a disk names, and the boot number there.
#[derive(Clone, Copy)]
struct Stored {
    side: Side,
    boot: u64,
}

/// Reads what is stored.
fn read_boot<D: Disk>(disk: &mut D) -> Result<Stored, Failed>
    ensures hands { Hands D.tells D.health 0 disk.old disk.new result }
    ensures kept { Speaks D.tells D.health disk.old → D.history disk.new ≡ D.history disk.old }
    ensures found { IfOk result (λ stored. Speaks D.tells D.health disk.old
        → IsStored (D.history disk.old).now.content stored.side stored.boot) }
{
    let mut selector = [0; 1];
    disk.read(SELECTOR, &mut selector)?;
    let side = Side::of(selector[0]);
    let mut bytes = [0; 8];
    disk.read(side.place(), &mut bytes)?;
    Ok(Stored {
        side,
        boot: number_of(&bytes),
    })
}
