ghost use Rattle.std.specs.Prelude.{◌≡◌, List, ℕ, ◌++◌, [], OnOk};
ghost use Rattle.sfs_base.specs.Fault.{HasCause};
ghost use Rattle.line_stream.specs.Output.{WritesFront};

use schedule_text::Sink;
use sfs_base::Failed;

/// Writes all of the bytes, in as many calls as the sink wants. [`Failed`]: a call of the sink failed,
/// and it holds the bytes that the calls before it took.
pub fn write_whole<K: Sink>(output: &mut K, bytes: &[u8]) -> Result<(), Failed>
    ensures cause { HasCause (K.faults output.old) (K.faults output.new) result }
    ensures front { (rest : List ℕ) × WritesFront (K.held output.old) (K.held output.new) bytes.now rest × OnOk result (rest ≡ []) }
{
    let mut rest = bytes;
    while !rest.is_empty() {
        let taken = output.write(rest)?;
        rest = &rest[taken..];
    }
    Ok(())
}
