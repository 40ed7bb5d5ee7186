ghost use Rattle.std.specs.Prelude.{◌≡◌, ◌⊎◌, ◌↔◌, ◌==◌, ◌||◌, ◌∷◌, [], ◌++◌, true, false, ⊤, Contains, IsErr, IfOk, IfErr, OnOk, OnErr, if◌then◌else◌, slice_set};
ghost use Rattle.std.specs.List.Sorted.{IsPermutation};
ghost use Rattle.sfs_base.specs.Fault.{HasCause};
ghost use Rattle.disk_model.specs.Health.{next_count};
ghost use Rattle.disk_model.specs.Plan.{plan_history, plan_health};
ghost use Rattle.disk_model.specs.Shelf.{disk_at, was_taken, IsAtRest};

use crate::Calls;
use crate::failing::Failing;
use crate::plan_disk::PlanDisk;
use crate::shelf::Shelf;
use sfs_base::{Failed, NoMemory};
use std::alloc::Global;
use std::marker::Model;

/// A shelf in memory. It tells its disks, and a take fails exactly where its list names it or the disk
/// does not lie there.
#[derive(Debug, Drop)]
pub struct PlanShelf {
    disks: Vec<Option<PlanDisk>>,
    failing: Failing,
    calls: u64,
    faults: u64,
}

impl Model for PlanShelf {
    ghost use Rattle.disk_model.specs.Failing.{failing_of};
    ghost use Rattle.disk_model.specs.Shelf.{Stock};

    ghost Value = { Stock };

    ghost view = { λ s. record {
      disks = s.disks.items;
      failing = failing_of s.failing;
      calls = s.calls;
      faults = s.faults;
    } };
}

impl PlanShelf {
    /// A shelf with no disk, whose takes with a number in `failing` fail. It takes no memory.
    pub fn new(alloc: Global, failing: Calls) -> PlanShelf
        ensures failing { IsPermutation failing result.failing }
        ensures rest { result ≡ record { disks = []; failing = result.failing; calls = 0; faults = 0 } }
    {
        PlanShelf {
            disks: Vec::new(alloc),
            failing: Failing::new(failing),
            calls: 0,
            faults: 0,
        }
    }

    /// Lays one more disk there, with the next number; the first one has the number 0. A refused call hands
    /// the disk back, and leaves the shelf as it was.
    pub fn push(&mut self, disk: PlanDisk) -> Result<(), (NoMemory, PlanDisk)>
        ensures ok { OnOk result (self.new ≡ record self.old { disks = self.old.disks ++ Some disk ∷ [] }) }
        ensures err { OnErr result (self.new ≡ self.old) }
        ensures back { IfErr result (λ refusal. refusal.1 ≡ disk) }
    {
        match self.disks.push(Some(disk)) {
            Ok(()) => Ok(()),
            Err(refused) => match refused.value {
                Some(disk) => Err((NoMemory, disk)),
                None => unreachable!(),
            },
        }
    }

    /// The disks by number, just as they lie there, where they were not taken: also those on which something
    /// is pending, or that failed. It takes no memory.
    pub fn into_disks(self) -> Vec<Option<PlanDisk>>
        ensures { result.items ≡ self.disks }
    {
        self.disks
    }

    /// How many takes failed so far; it stands still at the last value of a u64.
    pub fn faults(&self) -> u64
        ensures { result ≡ self.now.faults }
    {
        self.faults
    }
}

/// Takes the disk of a number out, if it lies there.
fn take_out(disks: &mut Vec<Option<PlanDisk>>, k: usize) -> Option<PlanDisk>
    ensures given { result ≡ disk_at disks.old.items k }
    ensures rest { disks.new.items ≡ slice_set disks.old.items k None }
{
    if k < disks.len() {
        disks[k].take()
    } else {
        None
    }
}

impl Shelf for PlanShelf {
    type D = PlanDisk;

    ghost tells = { λ _. ⊤ };

    ghost disks = { λ s k. disk_at s.disks k };

    ghost is_taken = { λ s k. was_taken s.disks k };

    ghost faults = { λ s. s.faults };

    /// Beside what each shelf owes: which takes fail, and what the shelf is afterwards.
    fn take(&mut self, k: u32) -> Result<PlanDisk, Failed>
        requires { ⊤ → (disk : _) → disk_at self.old.disks k ≡ Some disk → IsAtRest plan_history plan_health disk }
        ensures cause { HasCause self.old.faults self.new.faults result }
        ensures tells { ⊤ → ⊤ }
        ensures given { IfOk result (λ disk. ⊤ → disk_at self.old.disks k ≡ Some disk) }
        ensures told { IfOk result (λ disk. ⊤ → ⊤) }
        ensures rests { IfOk result (λ disk. ⊤ → IsAtRest plan_history plan_health disk) }
        ensures rest { OnOk result (⊤
            → (j : _) → disk_at self.new.disks j ≡ (if j == k then None else disk_at self.old.disks j)) }
        ensures taken { OnOk result ((j : _) → was_taken self.new.disks j ≡ (j == k || was_taken self.old.disks j)) }
        ensures kept { OnErr result (⊤ → (j : _) → disk_at self.new.disks j ≡ disk_at self.old.disks j) }
        ensures left { OnErr result ((j : _) → was_taken self.new.disks j ≡ was_taken self.old.disks j) }

        ensures planned { IsErr result
            ↔ (Contains self.old.failing (next_count self.old.calls) ⊎ (disk_at self.old.disks k ≡ None)) }
        ensures ok { OnOk result (self.new ≡ record self.old {
          disks = slice_set self.old.disks k None;
          calls = next_count self.old.calls;
        }) }
        ensures err { OnErr result (self.new ≡ record self.old {
          calls = next_count self.old.calls;
          faults = next_count self.old.faults;
        }) }
    {
        if self.failing.next_fails(&mut self.calls) {
            self.faults = self.faults.saturating_add(1);
            return Err(Failed);
        }
        match take_out(&mut self.disks, k as usize) {
            Some(disk) => Ok(disk),
            None => {
                self.faults = self.faults.saturating_add(1);
                Err(Failed)
            }
        }
    }

    /// Beside what each shelf owes: nothing else changes.
    fn give(&mut self, k: u32, disk: PlanDisk)
        requires taken { was_taken self.old.disks k ≡ true }
        requires told { ⊤ → ⊤ }
        ensures tells { ⊤ → ⊤ }
        ensures given { ⊤ → (j : _)
            → disk_at self.new.disks j ≡ (if j == k then Some disk else disk_at self.old.disks j) }
        ensures taken { (j : _) → was_taken self.new.disks j ≡ (if j == k then false else was_taken self.old.disks j) }
        ensures faults { self.new.faults ≡ self.old.faults }

        ensures all { self.new ≡ record self.old { disks = slice_set self.old.disks k (Some disk) } }
    {
        self.disks[k as usize] = Some(disk);
    }
}
