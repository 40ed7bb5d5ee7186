//! That the votes decide, and what the rules of a coordinator come to in worked cases.
ghost use Rattle.tx_coord.specs.Cases.{VotesAreCounted, DecisionsAreFinished, OldestGoes};
ghost use Rattle.tx_coord.specs.Laws.{CommittedWhereAllGranted};

/// What runs is committed exactly where the first vote of each participant that counts is Granted.
pub fn committed_where_all_granted()
    ensures { CommittedWhereAllGranted }
{}

/// The first fitting vote of each participant counts, and the reads come in the order of the items.
pub fn votes_are_counted()
    ensures { VotesAreCounted }
{}

/// An identifier is forgotten everywhere when all its participants are through with it, and not before.
pub fn decisions_are_finished()
    ensures { DecisionsAreFinished }
{}

/// A 33rd finishing identifier pushes out the oldest.
pub fn oldest_goes()
    ensures { OldestGoes }
{}
