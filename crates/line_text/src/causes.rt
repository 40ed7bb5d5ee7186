//! Reading why an actor went down, why an arrival has no reply, and why a backup ended.
ghost use Rattle.line_words.specs.Reading.{AnswersBad};
ghost use Rattle.line_text.specs.Reading.{why_of, damaged_of, down_why_of, damage_of, last_id, last_cut, retry_why_of, mismatch_of, locked_of, held_of, forced_of, backup_why_of, backup_locked_of, backup_lost_of};

use crate::backup_why::BackupWhy;
use crate::down_why::DownWhy;
use crate::drop_why::DropWhy;
use crate::names;
use crate::retry_why::RetryWhy;
use line_words::{LineFault, Words};
use mini_tx::{Actor, CutId, TxId};

/// Reads why an arrival has no reply.
#[tactic(auto, unfolding(crate::specs::Reading::why_of))]
pub fn why_of(words: &mut Words<'_>) -> Result<DropWhy, LineFault>
    ensures { AnswersBad result (why_of words.old) }
{
    let name = words.word()?;
    if name == names::DOWN {
        words.end(DropWhy::Down)
    } else if name == names::SILENT {
        words.end(DropWhy::Silent)
    } else if name == names::FULL {
        words.end(DropWhy::Full)
    } else if name == names::DAMAGED {
        damaged_of(words)
    } else {
        Err(LineFault::Bad)
    }
}

fn damaged_of(words: &mut Words<'_>) -> Result<DropWhy, LineFault>
    ensures { AnswersBad result (damaged_of words.old) }
{
    let memory = words.u32()?;
    let at = words.u32()?;
    words.end(DropWhy::Damaged { memory, at })
}

/// Reads why this actor went down.
#[tactic(auto, unfolding(crate::specs::Reading::down_why_of))]
pub fn down_why_of(who: Actor, words: &mut Words<'_>) -> Result<DownWhy, LineFault>
    ensures { AnswersBad result (down_why_of who words.old) }
{
    let name = words.word()?;
    if name == names::STOP {
        words.end(DownWhy::Stop)
    } else if name == names::FAULT {
        words.end(DownWhy::Fault)
    } else if name == names::FULL {
        words.end(DownWhy::Full)
    } else if name == names::SPENT {
        words.end(DownWhy::Spent)
    } else if name == names::DAMAGED {
        damage_of(who, words)
    } else {
        Err(LineFault::Bad)
    }
}

// Damage, which is a memory node's alone.
fn damage_of(who: Actor, words: &mut Words<'_>) -> Result<DownWhy, LineFault>
    ensures { AnswersBad result (damage_of who words.old) }
{
    match who {
        Actor::Memory(_) => words.end(DownWhy::Damaged),
        Actor::Node(_) | Actor::Manager => Err(LineFault::Bad),
    }
}

// A minitransaction, which ends a line.
#[tactic(auto, unfolding(crate::specs::Reading::last_id))]
fn last_id(words: &mut Words<'_>) -> Result<TxId, LineFault>
    ensures { AnswersBad result (last_id words.old) }
{
    let coord = words.u32()?;
    let boot = words.u64()?;
    let seq = words.u64()?;
    words.end(TxId { coord, boot, seq })
}

// A cut, which ends a line.
#[tactic(auto, unfolding(crate::specs::Reading::last_cut))]
fn last_cut(words: &mut Words<'_>) -> Result<CutId, LineFault>
    ensures { AnswersBad result (last_cut words.old) }
{
    let boot = words.u64()?;
    let seq = words.u64()?;
    words.end(CutId { boot, seq })
}

/// Reads why an arrival ended without a reply after it ran.
#[tactic(auto, unfolding(crate::specs::Reading::retry_why_of))]
pub fn retry_why_of(words: &mut Words<'_>) -> Result<RetryWhy, LineFault>
    ensures { AnswersBad result (retry_why_of words.old) }
{
    let name = words.word()?;
    if name == names::MISMATCH {
        mismatch_of(words)
    } else if name == names::LOCKED {
        locked_of(words)
    } else if name == names::HELD {
        held_of(words)
    } else if name == names::FORCED {
        forced_of(words)
    } else if name == names::UNREACHED {
        words.end(RetryWhy::Unreached)
    } else {
        Err(LineFault::Bad)
    }
}

fn mismatch_of(words: &mut Words<'_>) -> Result<RetryWhy, LineFault>
    ensures { AnswersBad result (mismatch_of words.old) }
{
    let memory = words.u32()?;
    let at = words.u32()?;
    words.end(RetryWhy::Mismatch { memory, at })
}

fn locked_of(words: &mut Words<'_>) -> Result<RetryWhy, LineFault>
    ensures { AnswersBad result (locked_of words.old) }
{
    let memory = words.u32()?;
    let holder = last_id(words)?;
    Ok(RetryWhy::Locked { memory, holder })
}

fn held_of(words: &mut Words<'_>) -> Result<RetryWhy, LineFault>
    ensures { AnswersBad result (held_of words.old) }
{
    let memory = words.u32()?;
    let cut = last_cut(words)?;
    Ok(RetryWhy::Held { memory, cut })
}

fn forced_of(words: &mut Words<'_>) -> Result<RetryWhy, LineFault>
    ensures { AnswersBad result (forced_of words.old) }
{
    let memory = words.u32()?;
    words.end(RetryWhy::Forced { memory })
}

/// Reads why a backup ended before it was done.
#[tactic(auto, unfolding(crate::specs::Reading::backup_why_of))]
pub fn backup_why_of(words: &mut Words<'_>) -> Result<BackupWhy, LineFault>
    ensures { AnswersBad result (backup_why_of words.old) }
{
    let name = words.word()?;
    if name == names::LOCKED {
        backup_locked_of(words)
    } else if name == names::LOST {
        backup_lost_of(words)
    } else if name == names::VAULT {
        words.end(BackupWhy::Vault)
    } else if name == names::UNREACHED {
        words.end(BackupWhy::Unreached)
    } else {
        Err(LineFault::Bad)
    }
}

fn backup_locked_of(words: &mut Words<'_>) -> Result<BackupWhy, LineFault>
    ensures { AnswersBad result (backup_locked_of words.old) }
{
    let memory = words.u32()?;
    let holder = last_id(words)?;
    Ok(BackupWhy::Locked { memory, holder })
}

fn backup_lost_of(words: &mut Words<'_>) -> Result<BackupWhy, LineFault>
    ensures { AnswersBad result (backup_lost_of words.old) }
{
    let memory = words.u32()?;
    words.end(BackupWhy::Lost { memory })
}
