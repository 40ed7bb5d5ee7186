ghost use Rattle.fs_checks.specs.Laws.{LookAtFacts};

/// The law that the checks look at nothing of a file but its facts: so what is decided over the facts of an
/// inode record is decided of the file that it stands for. It does nothing.
pub fn checks_look_at_facts()
    ensures { LookAtFacts }
{}
