//! Backups.
ghost use Rattle.std.specs.Prelude.{◌≡◌, is_some};
ghost use Rattle.transcript_judges.specs.Tests.{cuts_well, ends_well, fails_well, has_backup_cause, holds_of, is_from_one, is_none, is_whole, mounts_well};
ghost use Rattle.transcript_rules.specs.declared.backup.Backup.{Backup as ABackup};

use crate::events::{gives_up, handled, is_number, shows, words_between};
use crate::kinds::{is_held_locked, is_lost, is_whole};
use line_text::BackupWhy;
use mini_tx::Actor;
use transcript_checks::{is_actor, is_memory};
use transcript_facts::Facts;
use transcript_rules::{Backup, Post};

/// Whether `cut B at P` may stand: P is the number of changes so far, and B runs and has no cut yet.
pub fn cuts_well(facts: &Facts, number: u64, at: u64) -> bool
    ensures { result ≡ cuts_well facts.now number at }
{
    at == facts.points
        && is_number(number, facts.backups.running())
        && is_uncut(facts.backups.get(number))
}

fn is_uncut(backup: Option<Backup>) -> bool
    ensures { result ≡ holds_of (λ (b : ABackup). is_none b.cut) backup }
{
    match backup {
        Some(backup) => backup.cut.is_none(),
        None => false,
    }
}

/// Whether `backup B done` may stand: B runs, and its cut was made.
pub fn ends_well(facts: &Facts, number: u64) -> bool
    ensures { result ≡ ends_well facts.now number }
{
    is_number(number, facts.backups.running()) && is_cut(facts.backups.get(number))
}

fn is_cut(backup: Option<Backup>) -> bool
    ensures { result ≡ holds_of (λ (b : ABackup). is_some b.cut) backup }
{
    match backup {
        Some(backup) => backup.cut.is_some(),
        None => false,
    }
}

/// Whether `retry backup B ..` may stand: B runs, and the cause is there.
pub fn fails_well(facts: &Facts, number: u64, why: BackupWhy) -> bool
    ensures { result ≡ fails_well facts.now number why }
{
    is_number(number, facts.backups.running()) && has_backup_cause(facts, why)
}

fn has_backup_cause(facts: &Facts, why: BackupWhy) -> bool
    ensures { result ≡ has_backup_cause facts.now why }
{
    let handed = handled(facts);
    match why {
        BackupWhy::Locked { memory, .. } => {
            is_held_locked(words_between(Actor::Memory(memory), Actor::Manager, handed))
        }
        BackupWhy::Lost { memory } => {
            is_lost(words_between(Actor::Memory(memory), Actor::Manager, handed))
        }
        BackupWhy::Vault => is_from_one(handed),
        BackupWhy::Unreached => gives_up(facts.event, Actor::Manager),
    }
}

// Whether the manager hears from a memory node that it holds a cut, or a piece of it.
fn is_from_one(handed: Option<Post>) -> bool
    ensures { result ≡ holds_of (is_from_one is_whole) handed }
{
    match handed {
        Some(post) => {
            is_memory(post.from) && is_actor(post.to, Actor::Manager) && is_whole(Some(post.words))
        }
        None => false,
    }
}

/// Whether a line that says what the archive of a backup was mounted as may stand: the event shows it, and none stands
/// before.
pub fn mounts_well(facts: &Facts, number: u32) -> bool
    ensures { result ≡ mounts_well facts.now number }
{
    shows(facts.event, number) && !facts.said.mounting
}
