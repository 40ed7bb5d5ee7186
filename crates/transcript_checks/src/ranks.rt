//! The lines under one event.
ghost use Rattle.std.specs.Prelude.{◌≡◌};
ghost use Rattle.transcript_rules.specs.Truth.{is_mounting_line};
ghost use Rattle.transcript_rules.specs.Place.{rank, is_behind, is_lost_line, is_retry_line, is_sent, is_sent_by_memory};

use crate::actors::is_memory;
use line_text::Line;

/// Where a line stands under an event: lost, down, point, cut and sent lines in this order, and all others behind them.
pub fn rank(line: &Line) -> u8
    ensures { result ≡ rank line.now }
{
    match line {
        Line::Lost { .. } => 0,
        Line::Down { .. } => 1,
        Line::Point { .. } => 2,
        Line::Cut { .. } => 3,
        Line::Sent { .. } => 4,
        _ => 5,
    }
}

/// Whether a line may stand behind these, which stand under the same event.
pub fn is_behind(line: &Line, said: &[Line]) -> bool
    ensures { result ≡ is_behind line.now said.now }
{
    let own = rank(line);
    said.iter().all(|before| rank(before) <= own)
}

/// Whether the line says that a message is lost.
pub fn is_lost_line(line: &Line) -> bool
    ensures { result ≡ is_lost_line line.now }
{
    matches!(line, Line::Lost { .. })
}

/// Whether the line says that an arrival or a backup ended before it was done.
pub fn is_retry_line(line: &Line) -> bool
    ensures { result ≡ is_retry_line line.now }
{
    matches!(line, Line::Retry { .. } | Line::RetryBackup { .. })
}

/// Whether the line says what an archive was mounted as.
pub fn is_mounting_line(line: &Line) -> bool
    ensures { result ≡ is_mounting_line line.now }
{
    matches!(line, Line::Mounted { .. } | Line::MountFailed { .. })
}

/// Whether the line says that a message was posted.
pub fn is_sent(line: &Line) -> bool
    ensures { result ≡ is_sent line.now }
{
    matches!(line, Line::Sent { .. })
}

/// Whether it says so of a message of a memory node.
pub fn is_sent_by_memory(line: &Line) -> bool
    ensures { result ≡ is_sent_by_memory line.now }
{
    match line {
        Line::Sent { from, .. } => is_memory(*from),
        _ => false,
    }
}
