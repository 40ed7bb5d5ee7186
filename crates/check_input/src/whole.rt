ghost use Rattle.std.specs.Prelude.{◌≡◌, ◌++◌, length, IfOk, OnOk};
ghost use Rattle.line_stream.specs.LineReader.{CountsReads};
ghost use Rattle.check_input.specs.Whole.{OfText};

use line_stream::{PIECE_BYTES, Stop};
use schedule_text::Source;
use sfs_base::NoMemory;
use std::alloc::Global;

/// All bytes that a source has left. [`Stop::ReadFault`]: the source failed before its end.
pub(crate) fn read_whole<S: Source>(alloc: Global, source: &mut S) -> Result<Vec<u8>, Stop>
    ensures counts { CountsReads (S.faults source.old) (S.faults source.new) result }
    ensures all { IfOk result (λ bytes. OfText (S.left source.old) (λ text. bytes.items ≡ text)) }
{
    let mut bytes = Vec::new(alloc);
    let mut piece = new_piece(alloc)?;
    loop {
        let Ok(count) = source.read(&mut piece) else {
            return Err(Stop::ReadFault);
        };
        if count == 0 {
            return Ok(bytes);
        }
        add(&mut bytes, &piece[..count])?;
    }
}

// Room for what is read at once.
fn new_piece(alloc: Global) -> Result<Vec<u8>, NoMemory>
    ensures { IfOk result (λ piece. length piece.items ≡ 4096) }
{
    Ok(vec![in alloc; 0; PIECE_BYTES]?)
}

// Adds bytes at the end.
fn add(bytes: &mut Vec<u8>, more: &[u8]) -> Result<(), NoMemory>
    ensures { OnOk result (bytes.new.items ≡ bytes.old.items ++ more.now) }
{
    bytes.extend_from_slice(more)?;
    Ok(())
}
