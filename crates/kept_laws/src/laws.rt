//! The law of what is kept.
ghost use Rattle.kept_laws.specs.Laws.{KeptIsTrue};

/// Where a fetch matches a flat memory that stands for a tree, and all entries that are held are true of it, they are so
/// once the part is kept.
pub fn kept_is_true()
    ensures { KeptIsTrue }
{}
