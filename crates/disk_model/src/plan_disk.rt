ghost use Rattle.std.specs.Prelude.{◌≡◌, ◌+◌, ◌^◌, ◌<◌, ◌↔◌, ◌∷◌, [], false, true, length, Contains, is_ok, IsTrue, IsErr, OnOk, OnErr};
ghost use Rattle.std.specs.List.Sorted.{IsPermutation};
ghost use Rattle.disk_model.specs.Calls.{IsRead, IsWrite, IsSync, IsRestart};
ghost use Rattle.disk_model.specs.Failing.{failing_of};
ghost use Rattle.disk_model.specs.Health.{next_count};
ghost use Rattle.disk_model.specs.Plan.{plan_tells, plan_history, plan_health, IsPlanned};

use crate::Calls;
use crate::change::Change;
use crate::choice::Choice;
use crate::disk::Disk;
use crate::failing::Failing;
use crate::store::Store;
use sfs_base::{Failed, NoMemory};
use std::alloc::Global;
use std::marker::Model;

/// A disk in memory. It tells what it holds, and fails exactly at the calls that its list names, and
/// where it finds no memory: then it is starved, and its count of faults stays.
///
/// Of a write that the list lets fail no byte arrives, and its range is pending.
#[derive(Debug, Drop)]
pub struct PlanDisk {
    store: Store,
    failing: Failing,
    calls: u64,
    faults: u64,
    starved: bool,
    /// No call failed since it was made, or restarted.
    usable: bool,
}

impl Model for PlanDisk {
    ghost use Rattle.std.specs.Prelude.{◌≡◌, false};
    ghost use Rattle.disk_model.specs.Failing.{failing_of};
    ghost use Rattle.disk_model.specs.Plan.{Plan};
    ghost use Rattle.disk_model.specs.Store.{IsStore};

    ghost Value = { Plan };

    ghost view = { λ d. record {
      changes = d.store.changes.items;
      failing = failing_of d.failing;
      calls = d.calls;
      faults = d.faults;
      is_starved = d.starved;
      is_usable = d.usable;
    } };

    ghost invariant = { λ d. d.starved ≡ false → IsStore d.store };
}

impl PlanDisk {
    /// A disk that was never written, whose calls with a number in `failing` fail. It takes no memory.
    pub fn new(alloc: Global, failing: Calls) -> PlanDisk
        ensures failing { IsPermutation failing result.failing }
        ensures rest { result ≡ record {
          changes = [];
          failing = result.failing;
          calls = 0;
          faults = 0;
          is_starved = false;
          is_usable = true;
        } }
    {
        PlanDisk {
            store: Store::new(alloc),
            failing: Failing::new(failing),
            calls: 0,
            faults: 0,
            starved: false,
            usable: true,
        }
    }

    /// Its writes, syncs and restarts, the first one first.
    pub fn changes(&self) -> &[Change]
        ensures { result.now ≡ self.now.changes }
    {
        self.store.changes()
    }

    /// How many calls failed by the list so far; it stands still at the last value of a u64.
    pub fn faults(&self) -> u64
        ensures { result ≡ self.now.faults }
    {
        self.faults
    }

    /// How many calls were made so far; it stands still at the last value of a u64.
    pub fn calls(&self) -> u64
        ensures { result ≡ self.now.calls }
    {
        self.calls
    }

    /// From now on no call fails by the list. It takes no memory.
    pub fn fail_no_more(&mut self)
        ensures { self.new ≡ record self.old { failing = [] } }
    {
        self.failing.clear();
    }
}

/// What a call answers that the list lets fail, and that found memory or found none.
fn fail(done: Result<(), NoMemory>, faults: &mut u64, starved: &mut bool) -> Result<(), Failed>
    ensures failed { IsErr result }
    ensures counted { OnOk done ((faults.new ≡ next_count faults.old) × (starved.new ≡ starved.old)) }
    ensures starved { OnErr done ((faults.new ≡ faults.old) × (starved.new ≡ true)) }
{
    match done {
        Ok(()) => *faults = faults.saturating_add(1),
        Err(NoMemory) => *starved = true,
    }
    Err(Failed)
}

/// What a call answers that found memory or found none, on a disk that may be used then if `usable` says so.
fn finish(done: Result<(), NoMemory>, starved: &mut bool, usable: &mut bool) -> Result<(), Failed>
    ensures same { is_ok result ≡ is_ok done }
    ensures ok { OnOk done ((starved.new ≡ starved.old) × (usable.new ≡ usable.old)) }
    ensures starved { OnErr done ((starved.new ≡ true) × (usable.new ≡ false)) }
{
    match done {
        Ok(()) => Ok(()),
        Err(NoMemory) => {
            *starved = true;
            *usable = false;
            Err(Failed)
        }
    }
}

impl Disk for PlanDisk {
    ghost tells = { plan_tells };

    ghost history = { plan_history };

    ghost health = { plan_health };

    /// Beside what each disk owes: which calls fail, and what the disk is afterwards. It takes no memory.
    fn read(&mut self, at: u64, into: &mut [u8]) -> Result<(), Failed>
        requires { at + length into.old < 2 ^ 64 }
        ensures disk { IsRead plan_tells plan_history plan_health self.old self.new at into.new result }

        ensures planned { IsPlanned self.old self.new [] [] self.old.is_usable result }
        ensures fed { self.new.is_starved ≡ self.old.is_starved }
    {
        if self.starved {
            self.usable = false;
            return Err(Failed);
        }
        if self.failing.next_fails(&mut self.calls) {
            self.faults = self.faults.saturating_add(1);
            self.usable = false;
            return Err(Failed);
        }
        self.store.read(at, into);
        Ok(())
    }

    /// Beside what each disk owes: which calls fail, and what the disk is afterwards.
    fn write(&mut self, at: u64, from: &[u8]) -> Result<(), Failed>
        requires { at + length from.now < 2 ^ 64 }
        ensures disk { IsWrite plan_tells plan_history plan_health self.old self.new at from.now result }

        ensures planned { IsPlanned self.old self.new
            (Change.Wrote at from.now ∷ []) (Change.Missed at (length from.now) ∷ []) self.old.is_usable result }
    {
        if self.starved {
            self.usable = false;
            return Err(Failed);
        }
        if self.failing.next_fails(&mut self.calls) {
            self.usable = false;
            let done = self.store.miss(at, from.len());
            return fail(done, &mut self.faults, &mut self.starved);
        }
        let done = self.store.write(at, from);
        finish(done, &mut self.starved, &mut self.usable)
    }

    /// Beside what each disk owes: which calls fail, and what the disk is afterwards.
    fn sync(&mut self) -> Result<(), Failed>
        ensures disk { IsSync plan_tells plan_history plan_health self.old self.new result }

        ensures planned { IsPlanned self.old self.new (Change.Synced ∷ []) [] self.old.is_usable result }
    {
        if self.starved {
            self.usable = false;
            return Err(Failed);
        }
        if self.failing.next_fails(&mut self.calls) {
            self.faults = self.faults.saturating_add(1);
            self.usable = false;
            return Err(Failed);
        }
        let done = self.store.sync();
        finish(done, &mut self.starved, &mut self.usable)
    }

    /// Beside what each disk owes: which calls fail, and what the disk is afterwards.
    fn restart(&mut self, choice: Choice) -> Result<(), Failed>
        ensures disk { IsRestart plan_tells plan_history plan_health self.old self.new choice result }

        ensures planned { IsPlanned self.old self.new (Change.Restarted choice ∷ []) [] true result }
    {
        if self.starved {
            self.usable = false;
            return Err(Failed);
        }
        if self.failing.next_fails(&mut self.calls) {
            self.faults = self.faults.saturating_add(1);
            self.usable = false;
            return Err(Failed);
        }
        self.usable = true;
        let done = self.store.restart(choice);
        finish(done, &mut self.starved, &mut self.usable)
    }

    fn starved(&self) -> bool {
        self.starved
    }
}
