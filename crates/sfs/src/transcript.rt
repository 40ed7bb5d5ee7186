ghost use Rattle.std.specs.Prelude.{◌≡◌, ℕ, List, [], ◌++◌, OnOk};
ghost use Rattle.std.specs.List.{AllByRecursion};
ghost use Rattle.line_text.specs.Grammar.{IsWritableLine};
ghost use Rattle.sfs.specs.Legal.{text_of};
ghost use Rattle.line_stream.specs.Output.{WritesFront};
ghost use Rattle.line_stream.specs.Output.{CountsWrites};

use line_stream::{NEWLINE, Stop, write_whole};
use schedule_text::{Line, NoMemory, Sink, append_out};
use std::alloc::Global;

/// Writes lines of a transcript, each with its end. [`Stop::WriteFault`]: the sink failed, and holds the
/// bytes that it took before. [`Stop::NoMemory`]: nothing was written.
pub fn write_lines<K: Sink>(alloc: Global, output: &mut K, lines: &[Line]) -> Result<(), Stop>
    requires { AllByRecursion IsWritableLine lines.now }
    ensures counts { CountsWrites (K.faults output.old) (K.faults output.new) result }
    ensures front { (rest : List ℕ) × WritesFront (K.held output.old) (K.held output.new) (text_of lines.now) rest × OnOk result (rest ≡ []) }
{
    let mut text = Vec::new(alloc);
    append_lines(&mut text, lines)?;
    write_whole(output, &text).map_err(|_| Stop::WriteFault)
}

// Puts lines behind a text, each with its end.
fn append_lines(text: &mut Vec<u8>, lines: &[Line]) -> Result<(), NoMemory>
    requires { AllByRecursion IsWritableLine lines.now }
    ensures { OnOk result (text.new.items ≡ text.old.items ++ text_of lines.now) }
{
    for line in lines {
        append_out(text, line)?;
        text.push(NEWLINE)?;
    }
    Ok(())
}
