ghost use Rattle.std.specs.Prelude.{◌≡◌, ◌<◌, ◌++◌, ◌∷◌, ℕ, List, [], length, Option, OnOk, IfOk};
ghost use Rattle.std.specs.List.{AllByRecursion};
ghost use Rattle.event_text.specs.Grammar.{IsWritableEvent, spelling_of_event};
ghost use Rattle.line_stream.specs.Output.{CountsWrites, WritesFront};
ghost use Rattle.schedule_maker.specs.Making.{schedule};

use event_text::{Event, append_line};
use line_stream::{NEWLINE, Stop, write_whole};
use schedule_maker::Generator;
use schedule_text::{NoMemory, Sink};
use std::alloc::Global;

/// How many bytes are gathered before they are written.
const GATHERED_BYTES: usize = 65_536;

/// A schedule that is written: the events that are left, and the text that was gathered before them.
#[derive(Drop)]
pub struct Making {
    pub generator: Generator,
    pub text: Vec<u8>,
}

impl Making {
    ghost use Rattle.make_command.specs.Making.{Pushes, Stands, Turns};

    /// The schedule of this number with so many arrivals, of which nothing is written. It takes no memory.
    pub fn new(alloc: Global, seed: u64, count: u32) -> Making
        ensures generator { result.generator ≡ schedule seed count }
        ensures text { result.text.items ≡ [] }
    {
        Making {
            generator: Generator::new(alloc, seed, count),
            text: Vec::new(alloc),
        }
    }

    /// Gathers the line of the next event, and writes what is gathered where that is much; `false` where no event is
    /// left. [`Stop::WriteFault`]: the sink failed, and holds the bytes that it took before. [`Stop::NoMemory`]: there is
    /// no memory for the line.
    pub fn turn<K: Sink>(&mut self, output: &mut K) -> Result<bool, Stop>
        requires { AllByRecursion IsWritableEvent self.old.generator }
        ensures counts { CountsWrites (K.faults output.old) (K.faults output.new) result }
        ensures turns { (held : Option (List ℕ)) (whole : List ℕ) → Stands held (K.held output.old) whole self.old
            → Turns held (K.held output.new) whole self.old self.new result }
    {
        if !self.push()? {
            return Ok(false);
        }
        if !self.is_much() {
            return Ok(true);
        }
        self.flush(output)?;
        Ok(true)
    }

    // Whether much is gathered.
    fn is_much(&self) -> bool {
        self.text.len() >= GATHERED_BYTES
    }

    // Gathers the line of the next event; `false` where none is left.
    #[tactic(auto, using(crate::proofs::MakingLemmas::first_writable))]
    fn push(&mut self) -> Result<bool, NoMemory>
        requires { AllByRecursion IsWritableEvent self.old.generator }
        ensures { Pushes self.old self.new result }
    {
        let Some(event) = self.generator.next()? else {
            return Ok(false);
        };
        push_event(&mut self.text, &event)?;
        Ok(true)
    }

    /// Writes what is gathered, and gathers anew. [`Stop::WriteFault`]: the sink failed, and holds the bytes that it
    /// took before.
    pub fn flush<K: Sink>(&mut self, output: &mut K) -> Result<(), Stop>
        ensures counts { CountsWrites (K.faults output.old) (K.faults output.new) result }
        ensures front { (rest : List ℕ) × WritesFront (K.held output.old) (K.held output.new) self.old.text.items rest × OnOk result (rest ≡ []) }
        ensures text { OnOk result (self.new.text.items ≡ []) }
        ensures generator { OnOk result (self.new.generator ≡ self.old.generator) }
    {
        match write_whole(output, &self.text) {
            Ok(()) => {
                self.text.clear();
                Ok(())
            }
            Err(_) => Err(Stop::WriteFault),
        }
    }
}

// Puts the line of an event behind a text, with its end.
fn push_event(text: &mut Vec<u8>, event: &Event) -> Result<(), NoMemory>
    requires { IsWritableEvent event.now }
    ensures { OnOk result (text.new.items ≡ text.old.items ++ (spelling_of_event event.now ++ 10 ∷ [])) }
{
    append_line(text, event)?;
    text.push(NEWLINE)?;
    Ok(())
}
