//! What the rules of the recoverer come to, and worked cases of them.
ghost use Rattle.tx_recover.specs.Cases.{OrphansAreFinished, The65thIsPassedOver};
ghost use Rattle.tx_recover.specs.Laws.{AnswersDecide, AtMost64AreAtWork};

/// An identifier is committed only where each participant voted for it, and aborted only where one did not, as
/// soon as one of both is known.
pub fn answers_decide()
    ensures { AnswersDecide }
{}

/// No more than 64 identifiers are ever at work.
pub fn at_most_64_are_at_work()
    ensures { AtMost64AreAtWork }
{}

/// What a memory node keeps is asked about, decided and forgotten everywhere.
pub fn orphans_are_finished()
    ensures { OrphansAreFinished }
{}

/// A 65th identifier is passed over.
pub fn the_65th_is_passed_over()
    ensures { The65thIsPassedOver }
{}
