//! Laws of the grammar: each holds of all lines and all texts.
ghost use Rattle.line_text.specs.Laws.{LinesAreReadExactly, LinesHaveTheirOwnSpellings, LinesAreLines};

/// Reading a line of a transcript takes exactly the spellings of lines, each for its line.
pub fn lines_are_read_exactly()
    ensures { LinesAreReadExactly }
{}

/// Lines of the same spelling are equal.
pub fn lines_have_their_own_spellings()
    ensures { LinesHaveTheirOwnSpellings }
{}

/// The spelling of a line has no newline and at most [`MAX_LINE_BYTES`](crate::MAX_LINE_BYTES) bytes.
pub fn lines_are_lines()
    ensures { LinesAreLines }
{}
