//! The law of finals that read.
ghost use Rattle.reading_planner.specs.Laws.{ReadFinalsAreSound};

/// What the final of a call that reads can read makes an answer that a client can be told.
pub fn read_finals_are_sound()
    ensures { ReadFinalsAreSound }
{}
