//! Laws of entries and the flat memories that they are true of.
ghost use Rattle.node_cache.specs.Truth.{EditsKeepEntries, MatchedEntriesAreOwn, TrueEntriesStay};

/// An entry that is true of a flat memory is true of another one in which the file is as it was, or was changed more
/// often.
pub fn true_entries_stay()
    ensures { TrueEntriesStay }
{}

/// An entry that is true of a flat memory in which the stamp of its file stands is the flat memory's own.
pub fn matched_entries_are_own()
    ensures { MatchedEntriesAreOwn }
{}

/// A true entry stays true where a flat memory becomes what edits leave, each of which raises the change number of its
/// file.
pub fn edits_keep_entries()
    ensures { EditsKeepEntries }
{}
