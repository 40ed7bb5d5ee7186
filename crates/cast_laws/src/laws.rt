//! Laws of notes.
ghost use Rattle.cast_laws.specs.Noted.{CastsAreTold, NotesAreTrue};

/// A note is true when its minitransaction begins, and stays true where each new vote with an entry is noted.
pub fn notes_are_true()
    ensures { NotesAreTrue }
{}

/// A true note tells the place of the history at which an outcome Committed read the flat memory, where votes have entries.
pub fn casts_are_told()
    ensures { CastsAreTold }
{}
