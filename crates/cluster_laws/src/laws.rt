//! Laws of what is in doubt.
ghost use Rattle.cluster_laws.specs.Doubts.{CountsKeepDoubts, BeginningsAreInDoubt, RefusedAreNotInDoubt, DoubtsAreAlike};
ghost use Rattle.cluster_laws.specs.Reactions.{AnswersTellGrants, CopiesStay};
ghost use Rattle.cluster_laws.specs.Sending.{NodesSendToMemories};

/// A Granted vote with an entry takes its participant out, and takes a place in the history where it is the last one.
pub fn counts_keep_doubts()
    ensures { CountsKeepDoubts }
{}

/// A change that is begun is in doubt, and was not before.
pub fn beginnings_are_in_doubt()
    ensures { BeginningsAreInDoubt }
{}

/// A change that was refused is in doubt no longer.
pub fn refused_are_not_in_doubt()
    ensures { RefusedAreNotInDoubt }
{}

/// What is in doubt is known identifier by identifier.
pub fn doubts_are_alike()
    ensures { DoubtsAreAlike }
{}

/// A memory node's entry grants what its answer grants, where the identifier had no vote before and its vote has an entry.
pub fn answers_tell_grants()
    ensures { AnswersTellGrants }
{}

/// A message that is none about cuts leaves the copy of a cut as it is.
pub fn copies_stay()
    ensures { CopiesStay }
{}

/// What goes to a memory node was sent by a node of the cluster, and is none about cuts.
pub fn nodes_send_to_memories()
    ensures { NodesSendToMemories }
{}
