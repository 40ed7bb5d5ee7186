ghost use Rattle.sfs_base.specs.Fault.{HasCause};
ghost use Rattle.tree_command.specs.Reading.{ReadsByte};

use schedule_text::Source;
use sfs_base::Failed;

/// The next byte; `None` at the end of input. [`Failed`]: the source failed.
pub(crate) fn read_byte<S: Source>(input: &mut S) -> Result<Option<u8>, Failed>
    ensures cause { HasCause (S.faults input.old) (S.faults input.new) result }
    ensures read { ReadsByte (S.left input.old) (S.left input.new) result }
{
    let mut piece = [0; 1];
    let count = input.read(&mut piece)?;
    if count == 0 {
        Ok(None)
    } else {
        Ok(Some(piece[0]))
    }
}
