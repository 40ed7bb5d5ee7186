//! Reading takes just the spellings of arguments and results, and what is written is one of them.
ghost use Rattle.nfs_proto.specs.Laws.{ArgumentsAreExact, ArgumentsAreWritten, ResultsAreExact, ResultsAreWritten};

/// Reading the arguments of a procedure takes their spellings and nothing else, so that no spelling
/// begins another of the same procedure.
pub fn arguments_are_exact()
    ensures { ArgumentsAreExact }
{}

/// What is written of a call is one of its spellings.
pub fn arguments_are_written()
    ensures { ArgumentsAreWritten }
{}

/// Reading a result takes its spellings and nothing else, so that no spelling begins another of the same
/// procedure.
pub fn results_are_exact()
    ensures { ResultsAreExact }
{}

/// What is written of an answer is one of its spellings.
pub fn results_are_written()
    ensures { ResultsAreWritten }
{}
