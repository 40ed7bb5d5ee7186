//! What the steps of a story come to in worked cases.
ghost use Rattle.story_rules.specs.Cases.{ChangesAreCounted, LooksAreCast, CrashesAreTold};

/// A change has its place in the history when its last participant's entry counts, and once.
pub fn changes_are_counted()
    ensures { ChangesAreCounted }
{}

/// A Granted vote without an entry is cast by its message, and a refused identifier is noted.
pub fn looks_are_cast()
    ensures { LooksAreCast }
{}

/// What is sent to an actor that is down is lost, and what is durable stays.
pub fn crashes_are_told()
    ensures { CrashesAreTold }
{}
