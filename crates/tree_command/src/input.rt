ghost use Rattle.std.specs.Prelude.{List, ℕ, IfOk};
ghost use Rattle.fs_rules.specs.Geometry.{IsWithinLimits};
ghost use Rattle.tree_command.specs.Counts.{CountsReads};
ghost use Rattle.tree_command.specs.Input.{IsAnswer, IsAnswerBehind};
ghost use Rattle.tree_command.specs.Reading.{OfText};

use crate::answer::Answer;
use crate::byte::read_byte;
use crate::cluster::cluster_in;
use crate::head::read_head;
use crate::input_fault::InputFault;
use crate::parts::read_parts;
use crate::shown::shown;
use crate::stop::Stop;
use fs_rules::Geometry;
use schedule_text::Source;
use std::alloc::Global;

/// What the input says.
pub(crate) fn read_answer<S: Source>(alloc: Global, input: &mut S) -> Result<Answer, Stop>
    ensures counts { CountsReads (S.faults input.old) (S.faults input.new) result }
    ensures says { IfOk result (λ answer. OfText (S.left input.old) (λ text. IsAnswer text answer)) }
{
    let Some(line) = read_head(alloc, input)? else {
        return Ok(Answer::Faulty(InputFault::Head));
    };
    let Some(geometry) = cluster_in(alloc, line.as_slice())? else {
        return Ok(Answer::Faulty(InputFault::Head));
    };
    read_behind(alloc, input, geometry)
}

// What the bytes behind the line of a cluster say.
fn read_behind<S: Source>(alloc: Global, input: &mut S, geometry: Geometry) -> Result<Answer, Stop>
    requires { IsWithinLimits geometry }
    ensures counts { CountsReads (S.faults input.old) (S.faults input.new) result }
    ensures says { IfOk result (λ answer. OfText (S.left input.old) (λ behind. IsAnswerBehind geometry behind answer)) }
{
    let Some(parts) = read_parts(alloc, input, &geometry)? else {
        return Ok(Answer::Faulty(InputFault::Short));
    };
    match read_byte(input) {
        Ok(None) => Ok(shown(alloc, geometry, parts)?),
        Ok(Some(_)) => Ok(Answer::Faulty(InputFault::Trailing)),
        Err(_) => Err(Stop::ReadFault),
    }
}
