ghost use Rattle.std.specs.Prelude.{◌≡◌, ◌<◌, ◌^◌, ◌-◌, ℕ, List, [], ◌∷◌, length, Option, OnOk, IfOk};
ghost use Rattle.line_text.specs.Grammar.{IsWritableLine};
ghost use Rattle.line_words.specs.declared.limits.TheConstants.{MAX_LINES as most_lines};
ghost use Rattle.line_text.specs.declared.line.Line.{Line};
ghost use Rattle.sfs.specs.Legal.{text_of};
ghost use Rattle.line_stream.specs.Output.{WritesFront};
ghost use Rattle.line_stream.specs.Output.{CountsWrites};
ghost use Rattle.sfs.specs.Replay.{Counts, Replays};

use crate::ending::Ending;
use crate::step::Step;
use crate::transcript::write_lines;
use crate::turn::Turn;
use crate::world::World;
use line_stream::{ScheduleReader, Stop};
use schedule_text::{Line, MAX_LINES, Sink, Source};
use std::alloc::Global;

/// Replays a schedule, and writes its transcript: each line of the schedule is read, handled and answered
/// before the next is read. It ends at the event that ends the schedule, or at the first line that is
/// missing, outside the grammar or excluded, which is refused by its number.
/// [`Stop::ReadFault`]: the source failed. [`Stop::WriteFault`]: the sink failed. [`Stop::NoMemory`]: memory
/// ran out. The rule is "The transcript" of docs/FORMATS.md.
pub fn replay_schedule<S: Source, K: Sink>(
    alloc: Global,
    input: &mut S,
    output: &mut K,
) -> Result<Ending, Stop>
    ensures counts { Counts (S.faults input.old) (S.faults input.new) (K.faults output.old) (K.faults output.new) result }
    ensures replays { Replays (S.left input.old) (S.left input.new) (K.held output.old) (K.held output.new) result }
{
    let Some(mut replay) = Replay::open(alloc, input)? else {
        return close(alloc, output, Line::Refused { line: 1 }, Ending::Refused);
    };
    for number in 2..=MAX_LINES {
        match replay.turn(alloc, input, output)? {
            Turn::On => {}
            Turn::Ended => return close(alloc, output, Line::End, Ending::Ended),
            Turn::Refused => {
                return close(
                    alloc,
                    output,
                    Line::Refused { line: number },
                    Ending::Refused,
                );
            }
        }
    }
    let line = MAX_LINES + 1;
    close(alloc, output, Line::Refused { line }, Ending::Refused)
}

// Writes the last line of a transcript.
fn close<K: Sink>(alloc: Global, output: &mut K, line: Line, ending: Ending) -> Result<Ending, Stop>
    requires { IsWritableLine line }
    ensures counts { CountsWrites (K.faults output.old) (K.faults output.new) result }
    ensures front { (rest : List ℕ) × WritesFront (K.held output.old) (K.held output.new) (text_of (line ∷ [])) rest × OnOk result (rest ≡ []) }
    ensures ending { IfOk result (λ e. e ≡ ending) }
{
    write_lines(alloc, output, &[line])?;
    Ok(ending)
}

/// A replay of a schedule: the schedule as far as it was read, and the world behind it.
#[derive(Debug, Drop)]
pub struct Replay {
    pub reader: ScheduleReader,
    pub world: World,
}

impl Replay {
    ghost use Rattle.line_stream.specs.LineReader.{CountsReads};
    ghost use Rattle.sfs.specs.Replay.{Counts, Opens, Stood, Turns};

    /// Reads the first line, and opens the world of the cluster that it names; `None` where it names none
    /// within the limits.
    pub fn open<S: Source>(alloc: Global, input: &mut S) -> Result<Option<Replay>, Stop>
        ensures counts { CountsReads (S.faults input.old) (S.faults input.new) result }
        ensures opens { Opens (S.left input.old) (S.left input.new) result }
    {
        let mut reader = ScheduleReader::new(alloc)?;
        let Some(event) = reader.next_event(alloc, input)? else {
            return Ok(None);
        };
        let Some(world) = World::open(alloc, &event)? else {
            return Ok(None);
        };
        Ok(Some(Replay { reader, world }))
    }

    /// Reads the next line, handles its event, and writes the lines of it.
    pub fn turn<S: Source, K: Sink>(
        &mut self,
        alloc: Global,
        input: &mut S,
        output: &mut K,
    ) -> Result<Turn, Stop>
        ensures counts { Counts (S.faults input.old) (S.faults input.new) (K.faults output.old) (K.faults output.new) result }
        ensures turns { (left held : Option (List ℕ)) (done : List (List ℕ)) (lines : List Line)
            → Stood left (S.left input.old) held (K.held output.old) done lines self.old → length done < most_lines
            → Turns left (S.left input.new) held (K.held output.new) done lines self.new result }
    {
        let Some(event) = self.reader.next_event(alloc, input)? else {
            return Ok(Turn::Refused);
        };
        match self.world.step(alloc, &event)? {
            Step::On(lines) => {
                write_lines(alloc, output, lines.as_slice())?;
                Ok(Turn::On)
            }
            Step::Ended => Ok(Turn::Ended),
            Step::Refused => Ok(Turn::Refused),
        }
    }
}
