//! Laws of a coordinator's rules and of the machine's.
ghost use Rattle.coord_laws.specs.Laws.{ParticipantsAreTheTables, BeginningsAreTheMachines, GrantedVotesAreTheMachines, RefusedVotesAreTheMachines, DoneIsTheMachines, ResendsAreTheMachines, GivingUpIsTheMachines, StartsAreTheMachines};

/// The participants of a minitransaction are those of the machine's table.
pub fn participants_are_the_tables()
    ensures { ParticipantsAreTheTables }
{}

/// A coordinator begins what the machine's may begin, and shows in it again.
pub fn beginnings_are_the_machines()
    ensures { BeginningsAreTheMachines }
{}

/// It counts the Granted votes that the machine's counts, and ends alike.
pub fn granted_votes_are_the_machines()
    ensures { GrantedVotesAreTheMachines }
{}

/// And the others, which end what runs.
pub fn refused_votes_are_the_machines()
    ensures { RefusedVotesAreTheMachines }
{}

/// It finishes a decision when the machine's does.
pub fn done_is_the_machines()
    ensures { DoneIsTheMachines }
{}

/// It posts again what the machine's posts again.
pub fn resends_are_the_machines()
    ensures { ResendsAreTheMachines }
{}

/// It gives up as the machine's does.
pub fn giving_up_is_the_machines()
    ensures { GivingUpIsTheMachines }
{}

/// It starts as the machine's does.
pub fn starts_are_the_machines()
    ensures { StartsAreTheMachines }
{}
