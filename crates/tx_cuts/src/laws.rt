//! Laws of cuts, openings and crashes.
ghost use Rattle.tx_cuts.specs.Laws.{CutRunsAreRuns, CopiesAreFlat, CutPromisesAreKept, CutsAreMadeOnce, HoldsAreStill, HeldVotesWereHeld, OpensAgain, RecordsMayWait, CrashImagesAreReached, WholesAreCutRuns, WholesAreStates, WholeStepsJoin, BackupsAreFlat};
ghost use Rattle.tx_cuts.specs.Sound.{SoundOpens, RunsAreSound, CrashImagesAreSound, StatesAreSound, CrashedStatesAreSound};
ghost use Rattle.tx_cuts.specs.Cases.{CutsGoOn, BackupsEnd};
ghost use Rattle.tx_cuts.specs.Sample.{BackupEndsWell, OpeningEndsWell};

/// With cuts the transactions still run by their rules.
pub fn cut_runs_are_runs()
    ensures { CutRunsAreRuns }
{}

/// A copy of a cut that was made is the flat memory at that moment.
pub fn copies_are_flat()
    ensures { CopiesAreFlat }
{}

/// Every message about a cut keeps its promise: every piece is a part of the flat memory at the cut.
pub fn cut_promises_are_kept()
    ensures { CutPromisesAreKept }
{}

/// A cut is made once, at some points of the run.
pub fn cuts_are_made_once()
    ensures { CutsAreMadeOnce }
{}

/// While a memory node holds a cut, its image is the copy.
pub fn holds_are_still()
    ensures { HoldsAreStill }
{}

/// Each posted vote that is Held was cast when its cut was held there.
pub fn held_votes_were_held()
    ensures { HeldVotesWereHeld }
{}

/// The cluster opens from the logs and images that any run leaves, with the flat memory as it was.
pub fn opens_again()
    ensures { OpensAgain }
{}

/// What a memory node may append, it may still append after events elsewhere.
pub fn records_may_wait()
    ensures { RecordsMayWait }
{}

/// Whichever appends of memory nodes that went down are durable, the logs are those of a run.
pub fn crash_images_are_reached()
    ensures { CrashImagesAreReached }
{}

/// Every state that the actors reach, with backups, is reached by a run with cuts.
pub fn wholes_are_cut_runs()
    ensures { WholesAreCutRuns }
{}

/// A backup that is done has the images of all memory nodes in the flat memory at its cut.
pub fn backups_are_flat()
    ensures { BackupsAreFlat }
{}

/// A cluster opens from logs and images that are sound, with the settled memory.
pub fn sound_opens()
    ensures { SoundOpens }
{}

/// What any run leaves at any moment is sound for the flat memory at that moment.
pub fn runs_are_sound()
    ensures { RunsAreSound }
{}

/// A backup beside two minitransactions, of which one is refused while the cut is held.
pub fn backup_ends_well()
    ensures { BackupEndsWell }
{}

/// What memory nodes leave that went down while they appended is sound for the flat memory with the points that they complete.
pub fn crash_images_are_sound()
    ensures { CrashImagesAreSound }
{}

/// An opening with a committed identifier that is undecided everywhere, and a sweep that finishes it.
pub fn opening_ends_well()
    ensures { OpeningEndsWell }
{}

/// Without its cuts the whole is a state of the transactions.
pub fn wholes_are_states()
    ensures { WholesAreStates }
{}

/// What the actors reach is sound for the flat memory.
pub fn states_are_sound()
    ensures { StatesAreSound }
{}

/// Inputs behind inputs lead where both lead one after another.
pub fn whole_steps_join()
    ensures { WholeStepsJoin }
{}

/// Memory nodes that crash together, each with its records durable, leave a state of the actors, and it is sound.
pub fn crashed_states_are_sound()
    ensures { CrashedStatesAreSound }
{}

/// A hold is repeated, a cut that is left held is dropped, a lock drops the older copy, and a crash loses the copy.
pub fn cuts_go_on()
    ensures { CutsGoOn }
{}

/// What ends a backup, what it ignores, and how much a piece has.
pub fn backups_end()
    ensures { BackupsEnd }
{}
