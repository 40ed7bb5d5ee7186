ghost use Rattle.std.specs.Prelude.{IfOk};
ghost use Rattle.tree_command.specs.Counts.{CountsReads};
ghost use Rattle.tree_command.specs.Reading.{ReadsHead};

use crate::byte::read_byte;
use crate::stop::Stop;
use line_words::MAX_LINE_BYTES;
use schedule_text::Source;
use sfs_base::Bytes;
use std::alloc::Global;

/// What ends a line.
const NEWLINE: u8 = 10;

/// The first line without its end, which it may lack where the input ends with it; `None` where it has more bytes
/// than a line may have. Nothing behind its end is read.
pub(crate) fn read_head<S: Source>(alloc: Global, input: &mut S) -> Result<Option<Bytes>, Stop>
    ensures counts { CountsReads (S.faults input.old) (S.faults input.new) result }
    ensures head { IfOk result (ReadsHead (S.left input.old) (S.left input.new)) }
{
    let mut line = Bytes::new(alloc);
    for _ in 0..MAX_LINE_BYTES + 1 {
        let byte = match read_byte(input) {
            Ok(Some(byte)) => byte,
            Ok(None) => return Ok(Some(line)),
            Err(_) => return Err(Stop::ReadFault),
        };
        if byte == NEWLINE {
            return Ok(Some(line));
        }
        line.push(byte)?;
    }
    Ok(None)
}
