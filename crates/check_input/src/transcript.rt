ghost use Rattle.std.specs.Prelude.{◌≡◌, ◌+◌, ◌<◌, ◌^◌, length, IfOk, Ok};
ghost use Rattle.line_stream.specs.Lines.{lines_of};
ghost use Rattle.check_input.specs.Input.{line_in, lines_from};

use crate::input::Lines;
use crate::splitting::split_line;
use line_text::{Line, read_out};
use line_words::LineFault;
use schedule_text::MAX_LINE_BYTES;
use sfs_base::NoMemory;
use std::alloc::Global;

/// The lines of a transcript, of which the first has this number in the whole input. The inner error is the number of
/// the first line outside the grammar.
pub(crate) fn read_transcript(
    alloc: Global,
    first: u64,
    text: &[u8],
) -> Result<Result<Lines, u64>, NoMemory>
    requires { first + length text.now < 2 ^ 64 }
    ensures { IfOk result (λ lines. lines_from first (lines_of text.now) ≡ lines) }
{
    let mut lines = Lines::new(alloc);
    let mut rest = text;
    let mut number = first;
    while let Some((line, behind)) = split_line(rest) {
        let Some(line) = line_in(alloc, line)? else {
            return Ok(Err(number));
        };
        lines.push(line)?;
        rest = behind;
        number += 1;
    }
    Ok(Ok(lines))
}

// The line of a transcript that these bytes spell.
fn line_in(alloc: Global, line: &[u8]) -> Result<Option<Line>, NoMemory>
    ensures { IfOk result (λ told. told ≡ line_in line.now) }
{
    if line.len() > MAX_LINE_BYTES {
        return Ok(None);
    }
    match read_out(alloc, line) {
        Ok(line) => Ok(Some(line)),
        Err(LineFault::Bad) => Ok(None),
        Err(LineFault::NoMemory) => Err(NoMemory),
    }
}
