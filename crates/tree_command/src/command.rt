ghost use Rattle.std.specs.Prelude.{◌≡◌, List, ℕ, [], OnOk, IfOk};
ghost use Rattle.tree_command.specs.Command.{ending_of, fault_line, lines_of, Tells};
ghost use Rattle.tree_command.specs.Counts.{Counts, CountsWrites};
ghost use Rattle.tree_command.specs.Writing.{text_of, WritesFront};

use crate::answer::Answer;
use crate::ending::Ending;
use crate::input::read_answer;
use crate::input_fault::InputFault;
use crate::listing::write_listing;
use crate::output::write_lines;
use crate::stop::Stop;
use schedule_text::{Sink, Source};
use sfs_base::{Bytes, NoMemory};
use std::alloc::Global;

/// Reads a `cluster` line and the images of its memory nodes, and writes the listing of the tree that they stand for,
/// or the fault of the input (docs/FORMATS.md, "The input of `tree`"). The whole input is read before a byte is
/// written, but that nothing is read behind a fault of the first line.
///
/// # Errors
///
/// [`Stop::ReadFault`]: the source failed, and nothing was written. [`Stop::WriteFault`]: the sink failed, and holds
/// the front of what is due. [`Stop::NoMemory`]: memory ran out.
pub fn write_tree<S: Source, K: Sink>(
    alloc: Global,
    input: &mut S,
    output: &mut K,
) -> Result<Ending, Stop>
    ensures counts { Counts (S.faults input.old) (S.faults input.new) (K.faults output.old)
        (K.faults output.new) result }
    ensures tells { Tells (S.left input.old) (K.held output.old) (K.held output.new) result }
{
    let answer = read_answer(alloc, input)?;
    write_answer(alloc, output, &answer)
}

// Writes what an input says.
fn write_answer<K: Sink>(alloc: Global, output: &mut K, answer: &Answer) -> Result<Ending, Stop>
    ensures counts { CountsWrites (K.faults output.old) (K.faults output.new) result }
    ensures front { (rest : List ℕ) × WritesFront (K.held output.old) (K.held output.new)
        (text_of (lines_of answer.now)) rest × OnOk result (rest ≡ []) }
    ensures ending { IfOk result (λ ending. ending ≡ ending_of answer.now) }
{
    match answer {
        Answer::Listed(tree) => {
            write_listing(alloc, output, tree)?;
            Ok(Ending::Listed)
        }
        Answer::Faulty(fault) => {
            let line = fault_line(alloc, *fault)?;
            write_lines(alloc, output, &[line])?;
            Ok(Ending::Refused)
        }
    }
}

// The line of a fault.
fn fault_line(alloc: Global, fault: InputFault) -> Result<Bytes, NoMemory>
    ensures { IfOk result (λ line. line ≡ fault_line fault) }
{
    match fault {
        InputFault::Head => Bytes::from_slice(alloc, b"fault head"),
        InputFault::Short => Bytes::from_slice(alloc, b"fault short"),
        InputFault::Trailing => Bytes::from_slice(alloc, b"fault trailing"),
        InputFault::Tree => Bytes::from_slice(alloc, b"fault tree"),
    }
}
