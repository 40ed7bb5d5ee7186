ghost use Rattle.std.specs.Prelude.{◌≡◌, ◌≤◌, length, IfOk};
ghost use Rattle.line_stream.specs.Lines.{lines_of};
ghost use Rattle.line_stream.specs.Schedule.{event_in};
ghost use Rattle.check_input.specs.Input.{event_at, is_cluster, is_end, is_opening, may_stand, schedule_from, IsRead};

use crate::input::Events;
use crate::splitting::split_line;
use event_text::{Event, read_line};
use fs_rules::Geometry;
use line_words::LineFault;
use schedule_text::{MAX_LINE_BYTES, MAX_LINES};
use sfs_base::NoMemory;
use std::alloc::Global;

/// What the lines of a text begin with.
pub(crate) enum Begins<'a> {
    /// A schedule, and this is the text behind its last line.
    Schedule { events: Events, rest: &'a [u8] },
    /// A line with this number that belongs to no schedule, or that is missing.
    Refused { line: u64 },
}

/// The schedule that a text begins with.
pub(crate) fn read_schedule(alloc: Global, text: &[u8]) -> Result<Begins<'_>, NoMemory>
    ensures { IfOk result (IsRead (schedule_from 1 (lines_of text.now))) }
{
    let mut events = Events::new(alloc);
    let mut rest = text;
    for number in 1..=MAX_LINES {
        let Some((line, behind)) = split_line(rest) else {
            return Ok(Begins::Refused { line: number });
        };
        let Some(event) = event_at(alloc, number, line)? else {
            return Ok(Begins::Refused { line: number });
        };
        rest = behind;
        let last = is_end(&event);
        events.push(event)?;
        if last {
            return Ok(Begins::Schedule { events, rest });
        }
    }
    Ok(Begins::Refused {
        line: MAX_LINES + 1,
    })
}

// The event of the line with this number, if it may stand there.
fn event_at(alloc: Global, number: u64, line: &[u8]) -> Result<Option<Event>, NoMemory>
    ensures { IfOk result (λ event. event ≡ event_at number line.now) }
{
    match event_in(alloc, line)? {
        Some(event) if may_stand(number, &event) => Ok(Some(event)),
        _ => Ok(None),
    }
}

// The event that a line spells.
fn event_in(alloc: Global, line: &[u8]) -> Result<Option<Event>, NoMemory>
    ensures { IfOk result (λ event. event ≡ event_in line.now) }
{
    if line.len() > MAX_LINE_BYTES {
        return Ok(None);
    }
    match read_line(alloc, line) {
        Ok(event) => Ok(Some(event)),
        Err(LineFault::Bad) => Ok(None),
        Err(LineFault::NoMemory) => Err(NoMemory),
    }
}

// Whether an event may stand in the line with this number: a cluster in the first line, and in no other.
fn may_stand(number: u64, event: &Event) -> bool
    ensures { result ≡ may_stand number event.now }
{
    if number == 1 {
        is_opening(event)
    } else {
        !is_cluster(event)
    }
}

// Whether it names a cluster within the limits.
fn is_opening(event: &Event) -> bool
    ensures { result ≡ is_opening event.now }
{
    match event {
        Event::Cluster {
            nodes,
            memories,
            blocks,
            inodes,
        } => Geometry {
            nodes: *nodes,
            memories: *memories,
            blocks: *blocks,
            inodes: *inodes,
        }
        .is_within_limits(),
        _ => false,
    }
}

// Whether it names a cluster.
fn is_cluster(event: &Event) -> bool
    ensures { result ≡ is_cluster event.now }
{
    matches!(event, Event::Cluster { .. })
}

// Whether it ends a schedule.
fn is_end(event: &Event) -> bool
    ensures { result ≡ is_end event.now }
{
    matches!(event, Event::End)
}
