ghost use Rattle.std.specs.Prelude.{◌≡◌, ℕ, ◌+◌, ◌<◌, ◌≤◌, ◌∷◌, ◌++◌, [], length, None, Some, if◌then◌else◌, OnOk, IfSome, IfNone, false};
ghost use Rattle.transcript_rules.specs.declared.backup.Backup.{Backup as ABackup};
ghost use Rattle.transcript_rules.specs.Book.{numbered, with_numbered};
ghost use Rattle.transcript_facts.specs.Facts.{running_in, running_by, with_cut, with_done, with_over};

use sfs_base::NoMemory;
use std::alloc::Global;
use std::marker::Model;
use transcript_rules::Backup;

/// The backups, numbered from 1. A contract sees the list of them.
#[derive(Debug, Drop)]
pub struct Backups {
    told: Vec<Backup>,
}

impl Model for Backups {
    ghost use Rattle.std.specs.Prelude.{List};
    ghost use Rattle.transcript_rules.specs.declared.backup.Backup.{Backup as ABackup};

    ghost Value = { List ABackup };

    ghost view = { λ b. b.told.items };
}

impl Backups {
    /// No backup. It takes no memory.
    pub fn new(alloc: Global) -> Backups
        ensures { result ≡ [] }
    {
        Backups {
            told: Vec::new(alloc),
        }
    }

    /// How many began.
    pub fn len(&self) -> usize
        ensures { result ≡ length self.now }
    {
        self.told.len()
    }

    /// Backup `number`; `None` exactly where none has this number.
    pub fn get(&self, number: u64) -> Option<Backup>
        ensures { result ≡ numbered self.now number }
    {
        if number == 0 || number > self.told.len() as u64 {
            return None;
        }
        Some(self.told[(number - 1) as usize])
    }

    /// The backup that runs: the last one, where it is not over.
    pub fn running(&self) -> Option<u64>
        ensures { result ≡ running_in self.now }
    {
        let number = self.told.len() as u64;
        running_of(number, self.get(number))
    }

    /// One more begins. [`NoMemory`]: there is no memory for it, and whether it began is not said.
    pub fn begin(&mut self) -> Result<(), NoMemory>
        ensures { OnOk result (self.new ≡ self.old ++ (record { cut = None; done = false; over = false }) ∷ []) }
    {
        self.told.push(Backup {
            cut: None,
            done: false,
            over: false,
        })?;
        Ok(())
    }

    /// The cut of backup `number` has so many changes. Nothing changes where none has this number.
    pub fn cut(&mut self, number: u64, at: u64)
        ensures { self.new ≡ with_numbered self.old number (with_cut at) }
    {
        if let Some(index) = place_of(&self.told, number) {
            cut_at(&mut self.told, index, at);
        }
    }

    /// Backup `number` is done. Nothing changes where none has this number.
    pub fn end(&mut self, number: u64)
        ensures { self.new ≡ with_numbered self.old number with_done }
    {
        if let Some(index) = place_of(&self.told, number) {
            end_at(&mut self.told, index);
        }
    }

    /// Backup `number` is over. Nothing changes where none has this number.
    pub fn give_up(&mut self, number: u64)
        ensures { self.new ≡ with_numbered self.old number with_over }
    {
        if let Some(index) = place_of(&self.told, number) {
            give_up_at(&mut self.told, index);
        }
    }
}

// The backup with this number, if it runs.
fn running_of(number: u64, backup: Option<Backup>) -> Option<u64>
    ensures { result ≡ running_by number backup }
{
    match backup {
        Some(backup) => if_it_runs(number, backup.over),
        None => None,
    }
}

fn if_it_runs(number: u64, over: bool) -> Option<u64>
    ensures { result ≡ if over then None else Some number }
{
    if over { None } else { Some(number) }
}

// The place of backup `number`.
fn place_of(told: &[Backup], number: u64) -> Option<usize>
    ensures some { IfSome result (λ index. (index < length told.now) × (number ≡ index + 1)) }
    ensures none { IfNone result (0 < number → number ≤ length told.now → ⊥) }
{
    if number > 0 && number <= told.len() as u64 {
        Some((number - 1) as usize)
    } else {
        None
    }
}

fn cut_at(told: &mut Vec<Backup>, index: usize, at: u64)
    requires { index < length told.old.items }
    ensures { told.new.items ≡ with_numbered told.old.items (index + 1) (with_cut at) }
{
    told[index].cut = Some(at);
}

fn end_at(told: &mut Vec<Backup>, index: usize)
    requires { index < length told.old.items }
    ensures { told.new.items ≡ with_numbered told.old.items (index + 1) with_done }
{
    finish(&mut told[index]);
}

fn finish(backup: &mut Backup)
    ensures { backup.new ≡ with_done backup.old }
{
    backup.done = true;
    backup.over = true;
}

fn give_up_at(told: &mut Vec<Backup>, index: usize)
    requires { index < length told.old.items }
    ensures { told.new.items ≡ with_numbered told.old.items (index + 1) with_over }
{
    told[index].over = true;
}
