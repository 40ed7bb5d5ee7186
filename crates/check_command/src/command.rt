ghost use Rattle.std.specs.Prelude.{◌≡◌, ℕ, ◌∷◌, ◌++◌, List, [], decimal, IfOk, OnOk, Err};
ghost use Rattle.line_stream.specs.LineReader.{CountsReads};
ghost use Rattle.line_stream.specs.Output.{CountsWrites, WritesFront};
ghost use Rattle.line_stream.specs.declared.stop.Stop.TheVariants as stop;
ghost use Rattle.check_input.specs.Whole.{OfText};
ghost use Rattle.check_command.specs.Command.{Counts, Finds, IsFound, Tells, found_of, text_of};

use crate::found::Found;
use check_input::{Input, Stop, read_input};
use itoa::Buffer;
use line_stream::{NEWLINE, write_whole};
use schedule_text::{Sink, Source};
use sfs_base::NoMemory;
use std::alloc::Global;
use transcript_check::{Verdict, check};

/// Reads a schedule and a transcript behind it, judges the transcript, and writes what was found. The whole input is
/// read before a byte is written.
///
/// # Errors
///
/// [`Stop::ReadFault`]: the source failed, and nothing was written. [`Stop::WriteFault`]: the sink failed, and holds
/// the front of what is due. [`Stop::NoMemory`]: memory ran out, and nothing was written.
pub fn check_texts<S: Source, K: Sink>(
    alloc: Global,
    input: &mut S,
    output: &mut K,
) -> Result<Found, Stop>
    ensures counts { Counts (S.faults input.old) (S.faults input.new) (K.faults output.old) (K.faults output.new) result }
    ensures tells { Tells (S.left input.old) (K.held output.old) (K.held output.new) result }
{
    let found = read_found(alloc, input)?;
    write_found(alloc, output, found)
}

// What is found of all that a source has left.
fn read_found<S: Source>(alloc: Global, source: &mut S) -> Result<Found, Stop>
    ensures counts { CountsReads (S.faults source.old) (S.faults source.new) result }
    ensures found { IfOk result (λ found. OfText (S.left source.old) (IsFound found)) }
{
    let input = read_input(alloc, source)?;
    Ok(judged(alloc, &input)?)
}

// What is found of an input.
fn judged(alloc: Global, input: &Input) -> Result<Found, NoMemory>
    ensures { IfOk result (Finds input.now) }
{
    match input {
        Input::Texts { events, lines } => {
            let verdict = check(alloc, events.as_slice(), lines.as_slice())?;
            Ok(found_of(verdict))
        }
        Input::Refused { line } => Ok(Found::Refused { line: *line }),
    }
}

fn found_of(verdict: Verdict) -> Found
    ensures { result ≡ found_of verdict }
{
    match verdict {
        Verdict::Holds => Found::Holds,
        Verdict::Fails { line } => Found::Fails { line },
    }
}

// Writes what was found.
fn write_found<K: Sink>(alloc: Global, output: &mut K, found: Found) -> Result<Found, Stop>
    ensures counts { CountsWrites (K.faults output.old) (K.faults output.new) result }
    ensures front { (rest : List ℕ) × WritesFront (K.held output.old) (K.held output.new) (text_of found) rest × OnOk result (rest ≡ []) }
    ensures none { result ≡ Err stop.NoMemory → K.held output.new ≡ K.held output.old }
    ensures found { IfOk result (λ f. f ≡ found) }
{
    let text = text_of(alloc, found)?;
    put(output, &text)?;
    Ok(found)
}

fn put<K: Sink>(output: &mut K, text: &[u8]) -> Result<(), Stop>
    ensures counts { CountsWrites (K.faults output.old) (K.faults output.new) result }
    ensures front { (rest : List ℕ) × WritesFront (K.held output.old) (K.held output.new) text.now rest × OnOk result (rest ≡ []) }
    ensures none { result ≡ Err stop.NoMemory → ⊥ }
{
    match write_whole(output, text) {
        Ok(()) => Ok(()),
        Err(_) => Err(Stop::WriteFault),
    }
}

// The line of what was found, with its end.
fn text_of(alloc: Global, found: Found) -> Result<Vec<u8>, NoMemory>
    ensures { IfOk result (λ text. text.items ≡ text_of found) }
{
    match found {
        Found::Holds => Ok(Vec::from_slice(alloc, b"holds\n")?),
        Found::Fails { line } => numbered(alloc, b"fails ", line),
        Found::Refused { line } => numbered(alloc, b"refused ", line),
    }
}

// A line of a name and a number, with its end.
fn numbered(alloc: Global, name: &[u8], number: u64) -> Result<Vec<u8>, NoMemory>
    ensures { IfOk result (λ text. text.items ≡ name.now ++ (decimal number ++ 10 ∷ [])) }
{
    let mut digits = Buffer::new();
    let mut text = Vec::from_slice(alloc, name)?;
    text.extend_from_slice(digits.format(number).as_bytes())?;
    text.push(NEWLINE)?;
    Ok(text)
}
