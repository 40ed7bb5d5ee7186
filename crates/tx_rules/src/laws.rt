//! Laws of the transaction protocol: each holds of every run of its rules.
ghost use Rattle.tx_rules.specs.Laws.{FormattedOpens, BeginningsAreNew, NamedWasBegun, RunsOnlyAdd, DecisionsExclude, DecisionsStay, LoggedDecisionsAgree, ForgottenIsOver, PromisesAreKept, VotesCommit, RefusedNeverCommits, LocksAreApart, LocksStayApart, PointsAreTheCommitted, PointsMatch, HistoryIsFlat, OpenPointsTrade, ReadsAreFlat, LooksAreFlat, LooksHadTheirMoment, ImagesAreFlat, UnlockedIsFlat, RefusalsHadTheirReason};

/// A formatted cluster opens.
pub fn formatted_opens()
    ensures { FormattedOpens }
{}

/// An identifier begins once.
pub fn beginnings_are_new()
    ensures { BeginningsAreNew }
{}

/// What an entry names was begun.
pub fn named_was_begun()
    ensures { NamedWasBegun }
{}

/// What is begun, logged and posted, and the points, only grow at their front.
pub fn runs_only_add()
    ensures { RunsOnlyAdd }
{}

/// Committed and aborted exclude each other.
pub fn decisions_exclude()
    ensures { DecisionsExclude }
{}

/// What is committed, aborted or over stays so.
pub fn decisions_stay()
    ensures { DecisionsStay }
{}

/// Every logged decision agrees with what is decided.
pub fn logged_decisions_agree()
    ensures { LoggedDecisionsAgree }
{}

/// Where an identifier is forgotten anywhere, every participant is through with it.
pub fn forgotten_is_over()
    ensures { ForgottenIsOver }
{}

/// Every posted message keeps its promise.
pub fn promises_are_kept()
    ensures { PromisesAreKept }
{}

/// Granted votes of all participants make an identifier committed.
pub fn votes_commit()
    ensures { VotesCommit }
{}

/// After another vote on the newest identifier of its coordinator, it never commits.
pub fn refused_never_commits()
    ensures { RefusedNeverCommits }
{}

/// Undecided records of different identifiers touch no common cell.
pub fn locks_are_apart()
    ensures { LocksAreApart }
{}

/// Where the undecided records that are found touch no common cell, none ever do.
pub fn locks_stay_apart()
    ensures { LocksStayApart }
{}

/// The points are the committed identifiers, none twice.
pub fn points_are_the_committed()
    ensures { PointsAreTheCommitted }
{}

/// Each minitransaction matches the flat memory after the points before its own.
pub fn points_match()
    ensures { PointsMatch }
{}

/// The points with a write item alone give the same flat memory.
pub fn history_is_flat()
    ensures { HistoryIsFlat }
{}

/// The order of the points of undecided identifiers makes no difference.
pub fn open_points_trade()
    ensures { OpenPointsTrade }
{}

/// The bytes of a Granted vote are those of the flat memory just before the point.
pub fn reads_are_flat()
    ensures { ReadsAreFlat }
{}

/// The bytes of a Granted vote without an entry are those of the flat memory when it is posted.
pub fn looks_are_flat()
    ensures { LooksAreFlat }
{}

/// Each posted Granted vote without an entry has the bytes of the flat memory at the moment when it was posted itself.
pub fn looks_had_their_moment()
    ensures { LooksHadTheirMoment }
{}

/// The flat memory is what the memory nodes hold, but for writes that are still to come.
pub fn images_are_flat()
    ensures { ImagesAreFlat }
{}

/// A cell that no undecided record touches is what its memory node holds.
pub fn unlocked_is_flat()
    ensures { UnlockedIsFlat }
{}

/// Each vote that is not Granted was cast in the run when its reason held, in the flat memory where it is a mismatch.
pub fn refusals_had_their_reason()
    ensures { RefusalsHadTheirReason }
{}
