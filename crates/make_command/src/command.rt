ghost use Rattle.std.specs.Prelude.{◌≡◌, ℕ, List, [], OnOk};
ghost use Rattle.line_stream.specs.Output.{CountsWrites, WritesFront};
ghost use Rattle.make_command.specs.Made.{made_text};

use crate::making::Making;
use line_stream::Stop;
use schedule_text::Sink;
use std::alloc::Global;

/// Writes the schedule of this number with so many arrivals. [`Stop::WriteFault`]: the sink failed, and holds the
/// bytes that it took before. [`Stop::NoMemory`]: memory ran out, and the sink holds a front of the schedule. The
/// rule is "Made schedules" of docs/FORMATS.md.
pub fn make_schedule<K: Sink>(
    alloc: Global,
    seed: u64,
    count: u32,
    output: &mut K,
) -> Result<(), Stop>
    ensures counts { CountsWrites (K.faults output.old) (K.faults output.new) result }
    ensures front { (rest : List ℕ) × WritesFront (K.held output.old) (K.held output.new) (made_text seed count) rest × OnOk result (rest ≡ []) }
{
    let mut making = Making::new(alloc, seed, count);
    while making.turn(output)? {}
    making.flush(output)
}
