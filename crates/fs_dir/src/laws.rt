//! What is spelled has one value. That a value has one spelling is plain from the definitions.
ghost use Rattle.fs_dir.specs.Laws.{SlotsHaveOneValue};

/// No bytes spell the slots of two blocks.
pub fn slots_have_one_value()
    ensures { SlotsHaveOneValue }
{}
