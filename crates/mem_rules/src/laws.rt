//! Laws of the states and of the rules.
ghost use Rattle.mem_rules.specs.Good.{OpenedStatesAreGood, EntriesKeepStatesGood};
ghost use Rattle.mem_rules.specs.Reactions.{ReactionsAreFit, FitEntriesAreTyped};

/// Before the first entry a state is good.
pub fn opened_states_are_good()
    ensures { OpenedStatesAreGood }
{}

/// After each entry that is fit it is.
pub fn entries_keep_states_good()
    ensures { EntriesKeepStatesGood }
{}

/// The entry that a fit message makes a memory node append is fit, and has a spelling.
pub fn reactions_are_fit()
    ensures { ReactionsAreFit }
{}

/// The numbers of a fit entry are within their types.
pub fn fit_entries_are_typed()
    ensures { FitEntriesAreTyped }
{}
