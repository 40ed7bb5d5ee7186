ghost use Rattle.std.specs.Prelude.{◌≡◌, List, ℕ, ◌++◌, [], OnOk};
ghost use Rattle.sfs_base.specs.Fault.{HasCause};
ghost use Rattle.tree_command.specs.Counts.{CountsWrites};
ghost use Rattle.tree_command.specs.Writing.{text_of, WritesFront};

use crate::stop::Stop;
use schedule_text::Sink;
use sfs_base::{Bytes, Failed, NoMemory};
use std::alloc::Global;

/// What ends a line.
const NEWLINE: u8 = 10;

/// Writes lines, each with its end.
pub(crate) fn write_lines<K: Sink>(
    alloc: Global,
    output: &mut K,
    lines: &[Bytes],
) -> Result<(), Stop>
    ensures counts { CountsWrites (K.faults output.old) (K.faults output.new) result }
    ensures front { (rest : List ℕ) × WritesFront (K.held output.old) (K.held output.new) (text_of lines.now) rest
        × OnOk result (rest ≡ []) }
{
    let mut text = Vec::new(alloc);
    append_lines(&mut text, lines)?;
    write_whole(output, &text).map_err(|_| Stop::WriteFault)
}

// Puts lines behind a text, each with its end.
fn append_lines(text: &mut Vec<u8>, lines: &[Bytes]) -> Result<(), NoMemory>
    ensures { OnOk result (text.new.items ≡ text.old.items ++ text_of lines.now) }
{
    for line in lines {
        text.extend_from_slice(line.as_slice())?;
        text.push(NEWLINE)?;
    }
    Ok(())
}

// Writes all of the bytes, in as many calls as the sink wants. `Failed`: a call of the sink failed, and it holds the
// bytes that the calls before it took.
fn write_whole<K: Sink>(output: &mut K, bytes: &[u8]) -> Result<(), Failed>
    ensures cause { HasCause (K.faults output.old) (K.faults output.new) result }
    ensures front { (rest : List ℕ) × WritesFront (K.held output.old) (K.held output.new) bytes.now rest
        × OnOk result (rest ≡ []) }
{
    let mut rest = bytes;
    while !rest.is_empty() {
        let taken = output.write(rest)?;
        rest = &rest[taken..];
    }
    Ok(())
}
