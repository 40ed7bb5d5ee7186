//! Laws of outcomes and notes.
ghost use Rattle.note_laws.specs.Outcomes.{BeginningsAreFew, RefusedAreNoted, SitesAreMany};

/// Where a coordinator tells Refused, what it began last is among the refused identifiers of the story.
pub fn refused_are_noted()
    ensures { RefusedAreNoted }
{}

/// The memory nodes of a story are as many as at its opening.
pub fn sites_are_many()
    ensures { SitesAreMany }
{}

/// A coordinator has begun no more minitransactions than messages were posted.
pub fn beginnings_are_few()
    ensures { BeginningsAreFew }
{}
