//! Laws of the story of a cluster.
ghost use Rattle.story_laws.specs.Acts.{StoriesGoOn, ToldStoriesHold};
ghost use Rattle.story_laws.specs.Beginnings.{NamedWasBegun};
ghost use Rattle.story_laws.specs.Casts.{CastsAreTheEntries};
ghost use Rattle.story_laws.specs.Committed.{CommittedIsVoted};
ghost use Rattle.story_laws.specs.Complete.{GrantedAreChanges};
ghost use Rattle.story_laws.specs.Growth.{StepsOnlyAdd, ChangesAreGranted};
ghost use Rattle.story_laws.specs.Identifiers.{IdentifiersAreBegunOnce};
ghost use Rattle.story_laws.specs.Outcomes.{CommittedIsAChange};
ghost use Rattle.story_laws.specs.Sites.{SitesAreTheLogs};
ghost use Rattle.story_laws.specs.Votes.{VotesHaveEntries};

/// Each step only adds to what was begun, logged, posted, committed, cast and refused, and makes one point at most.
pub fn steps_only_add()
    ensures { StepsOnlyAdd }
{}

/// No identifier is begun twice, whatever crashes and starts, where each start of a node has a new boot number.
pub fn identifiers_are_begun_once()
    ensures { IdentifiersAreBegunOnce }
{}

/// Each change in the history has a Granted entry of each of its participants, for ever.
pub fn changes_are_granted()
    ensures { ChangesAreGranted }
{}

/// Each memory node has cast the votes of its Granted entries, in their order and each once.
pub fn casts_are_the_entries()
    ensures { CastsAreTheEntries }
{}

/// What is logged, posted, cast, running or refused was begun; and each `prepare` is to a participant of what was begun,
/// and tells it all participants and its own items.
pub fn what_is_named_was_begun()
    ensures { NamedWasBegun }
{}

/// And the converse of `changes_are_granted`: what was begun with a write item and granted by all its participants is in
/// the history.
pub fn granted_are_changes()
    ensures { GrantedAreChanges }
{}

/// A memory node has what its entries make of what its disk stood for at the opening; one that is down had that.
pub fn sites_are_the_logs()
    ensures { SitesAreTheLogs }
{}

/// In a cluster that was opened fresh a Granted vote that was posted has its entry, or is of one participant without a
/// write item; and a coordinator has counted no others.
pub fn votes_have_entries()
    ensures { VotesHaveEntries }
{}

/// Where a coordinator ends what runs as Committed, each participant has a Granted entry of it, or has looked.
pub fn committed_is_voted()
    ensures { CommittedIsVoted }
{}

/// So a change that a coordinator ends as Committed has its place in the history.
pub fn committed_is_a_change()
    ensures { CommittedIsAChange }
{}

/// A story that is told goes on with whatever may happen.
pub fn stories_go_on()
    ensures { StoriesGoOn }
{}

/// All of these laws hold of each story that is told of a cluster that was formatted.
pub fn told_stories_hold()
    ensures { ToldStoriesHold }
{}
