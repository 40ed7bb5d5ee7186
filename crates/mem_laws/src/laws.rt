//! Laws of a memory node's rules and of the machine's.
ghost use Rattle.mem_laws.specs.Cuts.{ListsAreTheMachines, HeldCutsAreTheMachines, ListedCutsAreTheMachines, HoldsAreTheMachines, ReleasesAreTheMachines, DropsAreTheMachines, ReadsAreTheMachines};
ghost use Rattle.mem_laws.specs.Loaded.{LoadedNodesShow, LoadedClustersShow};
ghost use Rattle.mem_laws.specs.Steps.{ReactionsAreTheMachines};
ghost use Rattle.mem_laws.specs.Minis.{ParticipantsAreTheTables, ValidMinisFit, MinisAreTold, MinisMatchAlike, MinisReadAlike, MinisWriteAlike, FlatMemoriesAreAlike};
ghost use Rattle.mem_laws.specs.Laws.{RulesAreTheMachines, VotesAreTheMachines, StatesAreTheMachines, DecisionsAreTheMachines, ForgettingIsTheMachines, AnswersAreTheMachines, DecisionsLeaveTheSame, ForgettingLeavesTheSame, AnswersLeaveTheSame, OthersLeaveIt, OpenedNodesShow};

/// A memory node finds the rule that the machine finds.
pub fn rules_are_the_machines()
    ensures { RulesAreTheMachines }
{}

/// A memory node appends what the machine appends, and sends the vote that it posts.
pub fn votes_are_the_machines()
    ensures { VotesAreTheMachines }
{}

/// After a vote a memory node shows in the machine again.
pub fn states_are_the_machines()
    ensures { StatesAreTheMachines }
{}

/// A memory node does with `decide` what the machine does.
pub fn decisions_are_the_machines()
    ensures { DecisionsAreTheMachines }
{}

/// And with `forget`.
pub fn forgetting_is_the_machines()
    ensures { ForgettingIsTheMachines }
{}

/// And with `ask`.
pub fn answers_are_the_machines()
    ensures { AnswersAreTheMachines }
{}

/// After `decide` a memory node shows in the machine again.
pub fn decisions_leave_the_same()
    ensures { DecisionsLeaveTheSame }
{}

/// After `forget` it does.
pub fn forgetting_leaves_the_same()
    ensures { ForgettingLeavesTheSame }
{}

/// And after `ask`.
pub fn answers_leave_the_same()
    ensures { AnswersLeaveTheSame }
{}

/// What happens elsewhere in the machine changes nothing of it.
pub fn others_leave_it()
    ensures { OthersLeaveIt }
{}

/// Without entries a memory node shows in a machine without records.
pub fn opened_nodes_show()
    ensures { OpenedNodesShow }
{}

/// A memory node names in an answer to `list` what the machine names, in the same order, with the same participants.
pub fn lists_are_the_machines()
    ensures { ListsAreTheMachines }
{}

/// It holds the cut that the machine holds.
pub fn held_cuts_are_the_machines()
    ensures { HeldCutsAreTheMachines }
{}

/// The cut that its answer to `list` names is the one that the machine sends.
pub fn listed_cuts_are_the_machines()
    ensures { ListedCutsAreTheMachines }
{}

/// It does with `hold` what the machine does, and shows in it again.
pub fn holds_are_the_machines()
    ensures { HoldsAreTheMachines }
{}

/// And with `release`.
pub fn releases_are_the_machines()
    ensures { ReleasesAreTheMachines }
{}

/// And with `drop`.
pub fn drops_are_the_machines()
    ensures { DropsAreTheMachines }
{}

/// And with `read`: the piece has the bytes of the machine.
pub fn reads_are_the_machines()
    ensures { ReadsAreTheMachines }
{}

/// A state that a load finds shows in a machine that is opened from states, floors without a record included.
pub fn loaded_nodes_show()
    ensures { LoadedNodesShow }
{}

/// A valid minitransaction over byte lists gives an entry of the table that fits.
pub fn valid_minis_fit()
    ensures { ValidMinisFit }
{}

/// Where the table has it, each participant is told its own items.
pub fn minis_are_told()
    ensures { MinisAreTold }
{}

/// The same compare items match over bytes and over cells.
pub fn minis_match_alike()
    ensures { MinisMatchAlike }
{}

/// The same bytes are read at each memory node.
pub fn minis_read_alike()
    ensures { MinisReadAlike }
{}

/// The same bytes stand after the writes.
pub fn minis_write_alike()
    ensures { MinisWriteAlike }
{}

/// The flat memory of cells is the one of bytes, at each place of the history.
pub fn flat_memories_are_alike()
    ensures { FlatMemoriesAreAlike }
{}

/// The participants of a minitransaction over byte lists are those of its entry.
pub fn participants_are_the_tables()
    ensures { ParticipantsAreTheTables }
{}

/// And each of them shows in the machine that is opened from the logs and images of all.
pub fn loaded_clusters_show()
    ensures { LoadedClustersShow }
{}

/// With each message but those of cuts a memory node does what the machine's does, and shows in it again.
pub fn reactions_are_the_machines()
    ensures { ReactionsAreTheMachines }
{}
