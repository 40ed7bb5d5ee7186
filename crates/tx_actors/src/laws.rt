//! Laws of the actors of the transaction protocol.
ghost use Rattle.tx_actors.specs.Headline.{FormattedClustersAreSerial};
ghost use Rattle.tx_actors.specs.Laws.{StatesAreRuns, BegunIsBelow, OnePointAnInput, OutcomesStand, OutcomesStay, FailedNeverCommits, FailuresHadTheirReason, LooksHaveTheirMoment, LooksHaveTheirInput, LiveAreNamedByAll, CommittedReadsAreFlat, LooksOfOutcomesAreFlat, ReactionsAreAllowed, UndecidedIsOpen, AboveIsNotPassed, FloorsAreGreatest, RecordsAreKept, ImagesAreReplayed, AppendingMakes, OthersChangeNothing, NumbersStay, StepsJoin};
ghost use Rattle.tx_actors.specs.Numbers.{IdentifiersAreOrdered, IdentifiersTellTheirCoordinator};
ghost use Rattle.tx_actors.specs.Sample.{SampleEndsWell, MessagesMayDisagree};
ghost use Rattle.tx_actors.specs.Rows.{TwoPhases, Orphan, Lone};
ghost use Rattle.tx_actors.specs.Cases.{CoordinatorFinishes, CoordinatorRepeats, ManagerFinishes, LimitsAreKept};

/// Whatever happens to a formatted cluster, its decisions agree, and it holds the flat memory of its points.
pub fn formatted_clusters_are_serial()
    ensures { FormattedClustersAreSerial }
{}

/// Every state that the actors reach is reached by a run of the rules.
pub fn states_are_runs()
    ensures { StatesAreRuns }
{}

/// Every outcome means what it says: Committed is committed, and another outcome is aborted.
pub fn outcomes_stand()
    ensures { OutcomesStand }
{}

/// Outcomes stay.
pub fn outcomes_stay()
    ensures { OutcomesStay }
{}

/// What ended otherwise than committed is never committed.
pub fn failed_never_commits()
    ensures { FailedNeverCommits }
{}

/// The bytes of the counted votes are those of the flat memory just before the point.
pub fn committed_reads_are_flat()
    ensures { CommittedReadsAreFlat }
{}

/// The bytes of a vote without an entry are those of the flat memory at a moment of the run.
pub fn looks_of_outcomes_are_flat()
    ensures { LooksOfOutcomesAreFlat }
{}

/// What a memory node appends when any posted message reaches it, it may append by the rules.
pub fn reactions_are_allowed()
    ensures { ReactionsAreAllowed }
{}

/// A memory node takes a record for undecided exactly where it holds locks.
pub fn undecided_is_open()
    ensures { UndecidedIsOpen }
{}

/// A memory node takes an identifier to be above its floor exactly where it is not passed.
pub fn above_is_not_passed()
    ensures { AboveIsNotPassed }
{}

/// The floor is the greatest identifier of its coordinator that was cast, with its vote.
pub fn floors_are_greatest()
    ensures { FloorsAreGreatest }
{}

/// A record is kept where it was granted by one of several participants and not forgotten.
pub fn records_are_kept()
    ensures { RecordsAreKept }
{}

/// A memory node's image is what its records make of the image before them.
pub fn images_are_replayed()
    ensures { ImagesAreReplayed }
{}

/// Identifiers are ordered by coordinator, then boot, then number.
pub fn identifiers_are_ordered()
    ensures { IdentifiersAreOrdered }
{}

/// Identifiers tell their coordinator.
pub fn identifiers_tell_their_coordinator()
    ensures { IdentifiersTellTheirCoordinator }
{}

/// A run with a crashed coordinator, a participant that stopped, and a sweep.
pub fn sample_ends_well()
    ensures { SampleEndsWell }
{}

/// A run in which both decisions on one identifier are posted, after every participant is through with it.
pub fn messages_may_disagree()
    ensures { MessagesMayDisagree }
{}

/// What was begun is below the least identifier that its coordinator may begin next.
pub fn begun_is_below()
    ensures { BegunIsBelow }
{}

/// One input makes one point at most.
pub fn one_point_an_input()
    ensures { OnePointAnInput }
{}

/// Why a minitransaction was refused held when the vote was cast.
pub fn failures_had_their_reason()
    ensures { FailuresHadTheirReason }
{}

/// A posted Granted vote without an entry has the bytes of the flat memory just before it was posted itself.
pub fn looks_have_their_moment()
    ensures { LooksHaveTheirMoment }
{}

/// Of a live identifier each record names the participants that it has.
pub fn live_are_named_by_all()
    ensures { LiveAreNamedByAll }
{}

/// A memory node has what its records make of what it had.
pub fn appending_makes()
    ensures { AppendingMakes }
{}

/// What happens elsewhere changes nothing of what a memory node has.
pub fn others_change_nothing()
    ensures { OthersChangeNothing }
{}

/// Two phases: one identifier is locked out by another, and forced where its `prepare` comes late.
pub fn two_phases()
    ensures { TwoPhases }
{}

/// A sweep finishes what a coordinator left behind when it crashed.
pub fn orphan()
    ensures { Orphan }
{}

/// One participant: a look, a grant that is repeated, a mismatch, and a vote below the floor.
pub fn lone()
    ensures { Lone }
{}

/// A coordinator finishes what it decided.
pub fn coordinator_finishes()
    ensures { CoordinatorFinishes }
{}

/// It posts again, gives up and crashes.
pub fn coordinator_repeats()
    ensures { CoordinatorRepeats }
{}

/// The manager finishes what it finds.
pub fn manager_finishes()
    ensures { ManagerFinishes }
{}

/// 32 identifiers are finishing at most, 64 at work, and 64 named in an answer to `list`.
pub fn limits_are_kept()
    ensures { LimitsAreKept }
{}

/// A message keeps its number when more are posted.
pub fn numbers_stay()
    ensures { NumbersStay }
{}

/// Inputs behind inputs lead where both lead one after another.
pub fn steps_join()
    ensures { StepsJoin }
{}

/// And the flat memory just before the input that posts it.
pub fn looks_have_their_input()
    ensures { LooksHaveTheirInput }
{}
