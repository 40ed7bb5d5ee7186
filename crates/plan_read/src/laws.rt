//! The law of the reading procedures.
ghost use Rattle.plan_read.specs.Readings.{ReadingsAnswer};

/// Each of them answers as the rules do, over every flat memory of which what it looked at is held as it is.
pub fn readings_answer()
    ensures { ReadingsAnswer }
{}
