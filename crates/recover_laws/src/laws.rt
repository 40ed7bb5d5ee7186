//! That the recoverer and the machine's manager do the same.
ghost use Rattle.recover_laws.specs.Laws.{AnswersAreTheManagers, DoneIsTheManagers, KeptIsTheManagers, ResendsAreTheManagers};

/// They take up the same of the records that a memory node keeps.
pub fn kept_is_the_managers()
    ensures { KeptIsTheManagers }
{}

/// They decide the same by the answers of memory nodes.
pub fn answers_are_the_managers()
    ensures { AnswersAreTheManagers }
{}

/// They are through with the same.
pub fn done_is_the_managers()
    ensures { DoneIsTheManagers }
{}

/// They post the same again.
pub fn resends_are_the_managers()
    ensures { ResendsAreTheManagers }
{}
