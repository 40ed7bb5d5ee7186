ghost use Rattle.std.specs.Prelude.{◌≡◌, List, ℕ, Option, IfOk};
ghost use Rattle.line_stream.specs.LineReader.{CountsReads};

use crate::found::Found;
use crate::line_reader::LineReader;
use crate::stop::Stop;
use schedule_text::{Event, LineFault, NoMemory, Source, read_line};
use std::alloc::Global;

/// Reads a schedule event by event. Once the text has ended it reads nothing more.
#[derive(Debug, Drop)]
pub struct ScheduleReader {
    pub lines: LineReader,
    pub ended: bool,
}

impl ScheduleReader {
    ghost use Rattle.line_stream.specs.ScheduleReader.{HasRead, ReadsLine, ReadsEvent, SaysEvent, IsUnread};

    /// A reader that has read nothing.
    pub fn new(alloc: Global) -> Result<ScheduleReader, NoMemory>
        ensures { IfOk result IsUnread }
    {
        Ok(ScheduleReader {
            lines: LineReader::new(alloc)?,
            ended: false,
        })
    }

    /// The event of the next line; `None` where the line is missing, has more bytes than a line may have,
    /// or is outside the grammar. [`Stop::ReadFault`]: the source failed before the line ended.
    pub fn next_event<S: Source>(
        &mut self,
        alloc: Global,
        source: &mut S,
    ) -> Result<Option<Event>, Stop>
        ensures counts { CountsReads (S.faults source.old) (S.faults source.new) result }
        ensures reads { (before : Option (List ℕ)) (done : List (List ℕ)) → HasRead before (S.left source.old) done self.old
            → ReadsEvent before (S.left source.new) done self.new result }
    {
        if !self.next_line(source)? {
            return Ok(None);
        }
        Ok(self.event(alloc)?)
    }

    // Goes on to the next line; `false` where it is missing or too long.
    fn next_line<S: Source>(&mut self, source: &mut S) -> Result<bool, Stop>
        ensures counts { CountsReads (S.faults source.old) (S.faults source.new) result }
        ensures reads { (before : Option (List ℕ)) (done : List (List ℕ)) → HasRead before (S.left source.old) done self.old
            → ReadsLine before (S.left source.new) done self.new result }
    {
        if self.ended {
            return Ok(false);
        }
        match self.lines.next_line(source)? {
            Found::Line => Ok(true),
            Found::Last => {
                self.ended = true;
                Ok(true)
            }
            Found::End => Ok(false),
            Found::TooLong => Ok(false),
        }
    }

    // The event that the line spells, if it spells one.
    fn event(&self, alloc: Global) -> Result<Option<Event>, NoMemory>
        ensures { SaysEvent self.now.lines.line result }
    {
        match read_line(alloc, self.lines.line()) {
            Ok(event) => Ok(Some(event)),
            Err(LineFault::Bad) => Ok(None),
            Err(LineFault::NoMemory) => Err(NoMemory),
        }
    }
}
