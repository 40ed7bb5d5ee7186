ghost use Rattle.std.specs.Prelude.{◌≡◌, length, IfOk};
ghost use Rattle.sfs_base.specs.Fault.{HasCause};
ghost use Rattle.tree_command.specs.Counts.{CountsReads};
ghost use Rattle.tree_command.specs.Reading.{Fills, ReadsImage};

use crate::stop::Stop;
use schedule_text::Source;
use sfs_base::{Bytes, Failed};
use std::alloc::Global;

/// The next `size` bytes; `None` where the input ends before.
pub(crate) fn read_image<S: Source>(
    alloc: Global,
    input: &mut S,
    size: usize,
) -> Result<Option<Bytes>, Stop>
    ensures counts { CountsReads (S.faults input.old) (S.faults input.new) result }
    ensures image { IfOk result (ReadsImage (S.left input.old) (S.left input.new) size) }
{
    let mut image = vec![in alloc; 0; size]?;
    match fill(input, &mut image) {
        Ok(true) => Ok(Some(Bytes::from(image))),
        Ok(false) => Ok(None),
        Err(_) => Err(Stop::ReadFault),
    }
}

// Puts the next bytes in place of all of these; `false` where the input ends before.
fn fill<S: Source>(input: &mut S, image: &mut Vec<u8>) -> Result<bool, Failed>
    ensures cause { HasCause (S.faults input.old) (S.faults input.new) result }
    ensures filled { IfOk result (Fills (S.left input.old) (S.left input.new) image.old.items image.new.items) }
{
    let mut at = 0;
    while at < image.len() {
        let count = input.read(&mut image[at..])?;
        if count == 0 {
            return Ok(false);
        }
        at += count;
    }
    Ok(true)
}
