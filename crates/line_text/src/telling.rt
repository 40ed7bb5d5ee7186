//! Reading the lines that end what came before: an arrival, a backup, a mounting, a transcript.
ghost use Rattle.line_words.specs.Reading.{AnswersBad};
ghost use Rattle.line_text.specs.Reading.{ending_of, retry_of, retry_backup_of, retry_arrival_of, dropped_of, cut_of, backup_of, mounted_of, mounting_of, listing_of, refused_of};

use crate::causes::{backup_why_of, retry_why_of, why_of};
use crate::line::Line;
use crate::names;
use line_words::{LineFault, Words};

/// Reads the line with this name from the words behind it.
#[tactic(auto, unfolding(crate::specs::Reading::ending_of))]
pub fn ending_of(name: &[u8], words: &mut Words<'_>) -> Result<Line, LineFault>
    ensures { AnswersBad result (ending_of name.now words.old) }
{
    if name == names::RETRY {
        retry_of(words)
    } else if name == names::DROPPED {
        dropped_of(words)
    } else if name == names::CUT {
        cut_of(words)
    } else if name == names::BACKUP {
        backup_of(words)
    } else if name == names::MOUNTED {
        mounted_of(words)
    } else if name == names::REFUSED {
        refused_of(words)
    } else if name == names::END {
        words.end(Line::End)
    } else {
        Err(LineFault::Bad)
    }
}

#[tactic(auto, unfolding(crate::specs::Reading::retry_of))]
fn retry_of(words: &mut Words<'_>) -> Result<Line, LineFault>
    ensures { AnswersBad result (retry_of words.old) }
{
    if words.try_skip(names::BACKUP) {
        return retry_backup_of(words);
    }
    retry_arrival_of(words)
}

#[tactic(auto, unfolding(crate::specs::Reading::retry_backup_of))]
fn retry_backup_of(words: &mut Words<'_>) -> Result<Line, LineFault>
    ensures { AnswersBad result (retry_backup_of words.old) }
{
    let number = words.u32()?;
    let why = backup_why_of(words)?;
    Ok(Line::RetryBackup { number, why })
}

#[tactic(auto, unfolding(crate::specs::Reading::retry_arrival_of))]
fn retry_arrival_of(words: &mut Words<'_>) -> Result<Line, LineFault>
    ensures { AnswersBad result (retry_arrival_of words.old) }
{
    let arrival = words.u32()?;
    let why = retry_why_of(words)?;
    Ok(Line::Retry { arrival, why })
}

#[tactic(auto, unfolding(crate::specs::Reading::dropped_of))]
fn dropped_of(words: &mut Words<'_>) -> Result<Line, LineFault>
    ensures { AnswersBad result (dropped_of words.old) }
{
    let arrival = words.u32()?;
    let why = why_of(words)?;
    Ok(Line::Dropped { arrival, why })
}

#[tactic(auto, unfolding(crate::specs::Reading::cut_of))]
fn cut_of(words: &mut Words<'_>) -> Result<Line, LineFault>
    ensures { AnswersBad result (cut_of words.old) }
{
    let number = words.u32()?;
    words.skip(names::AT)?;
    let at = words.u64()?;
    words.end(Line::Cut { number, at })
}

#[tactic(auto, unfolding(crate::specs::Reading::backup_of))]
fn backup_of(words: &mut Words<'_>) -> Result<Line, LineFault>
    ensures { AnswersBad result (backup_of words.old) }
{
    let number = words.u32()?;
    words.skip(names::DONE)?;
    words.end(Line::BackupDone { number })
}

#[tactic(auto, unfolding(crate::specs::Reading::mounted_of))]
fn mounted_of(words: &mut Words<'_>) -> Result<Line, LineFault>
    ensures { AnswersBad result (mounted_of words.old) }
{
    let number = words.u32()?;
    mounting_of(number, words)
}

// What mounting the archive with this number came to.
#[tactic(auto, unfolding(crate::specs::Reading::mounting_of))]
fn mounting_of(number: u32, words: &mut Words<'_>) -> Result<Line, LineFault>
    ensures { AnswersBad result (mounting_of number words.old) }
{
    if words.try_skip(names::FAILED) {
        return words.end(Line::MountFailed { number });
    }
    if words.try_skip(names::BAD) {
        return words.end(Line::MountBad { number });
    }
    listing_of(number, words)
}

fn listing_of(number: u32, words: &mut Words<'_>) -> Result<Line, LineFault>
    ensures { AnswersBad result (listing_of number words.old) }
{
    let lines = words.u64()?;
    words.end(Line::Mounted { number, lines })
}

#[tactic(auto, unfolding(crate::specs::Reading::refused_of))]
fn refused_of(words: &mut Words<'_>) -> Result<Line, LineFault>
    ensures { AnswersBad result (refused_of words.old) }
{
    let line = words.u64()?;
    words.end(Line::Refused { line })
}
