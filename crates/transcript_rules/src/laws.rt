//! Laws of legal transcripts.
ghost use Rattle.transcript_rules.specs.Laws.{PrefixesAreLegal, NothingFollowsTheEnd, TheEndAloneIsLegal};

/// The lines that a legal transcript begins with are legal.
pub fn prefixes_are_legal()
    ensures { PrefixesAreLegal }
{}

/// No line follows the last one of a transcript.
pub fn nothing_follows_the_end()
    ensures { NothingFollowsTheEnd }
{}

/// The transcript of a cluster to which nothing comes is `end`.
pub fn the_end_alone_is_legal()
    ensures { TheEndAloneIsLegal }
{}
