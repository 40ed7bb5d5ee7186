ghost use Rattle.std.specs.Prelude.{◌≡◌, ◌+◌, length, IfOk};
ghost use Rattle.line_stream.specs.Lines.{lines_of};
ghost use Rattle.line_stream.specs.LineReader.{CountsReads};
ghost use Rattle.check_input.specs.Input.{input_of, lines_from, with_lines};
ghost use Rattle.check_input.specs.Whole.{OfText};

use crate::schedule::{Begins, read_schedule};
use crate::transcript::read_transcript;
use crate::whole::read_whole;
use event_text::Event;
use line_stream::Stop;
use line_text::Line;
use schedule_text::Source;
use sfs_base::{NoMemory, Seq};
use std::alloc::Global;

/// The events of a schedule.
pub type Events = Seq<Event>;

/// The lines of a transcript.
pub type Lines = Seq<Line>;

/// What an input says.
#[derive(Debug, Drop)]
pub enum Input {
    /// A schedule, and a transcript behind it.
    Texts { events: Events, lines: Lines },
    /// The line with this number, counted from 1, is outside its grammar, or is missing in the schedule.
    Refused { line: u64 },
}

/// Reads all of a source as a schedule and a transcript behind it. The source is read to its end also where an early
/// line is refused. [`Stop::ReadFault`]: the source failed. [`Stop::NoMemory`]: memory ran out.
pub fn read_input<S: Source>(alloc: Global, source: &mut S) -> Result<Input, Stop>
    ensures counts { CountsReads (S.faults source.old) (S.faults source.new) result }
    ensures says { IfOk result (λ input. OfText (S.left source.old) (λ text. input ≡ input_of text)) }
{
    let text = read_whole(alloc, source)?;
    Ok(parsed(alloc, text.as_slice())?)
}

// What a text says.
fn parsed(alloc: Global, text: &[u8]) -> Result<Input, NoMemory>
    ensures { IfOk result (λ input. input ≡ input_of text.now) }
{
    match read_schedule(alloc, text)? {
        Begins::Schedule { events, rest } => behind(alloc, events, rest),
        Begins::Refused { line } => Ok(Input::Refused { line }),
    }
}

// What a schedule and the text behind it say.
fn behind(alloc: Global, events: Events, text: &[u8]) -> Result<Input, NoMemory>
    ensures { IfOk result (λ input. input ≡ with_lines events (lines_from (length events + 1) (lines_of text.now))) }
{
    let first = events.len() as u64 + 1;
    match read_transcript(alloc, first, text)? {
        Ok(lines) => Ok(Input::Texts { events, lines }),
        Err(line) => Ok(Input::Refused { line }),
    }
}
