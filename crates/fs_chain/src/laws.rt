//! What is spelled has one value. That a value has one spelling is plain from the definitions.
ghost use Rattle.fs_chain.specs.Laws.{ChainsHaveOneValue};

/// No bytes spell two chaining blocks.
pub fn chains_have_one_value()
    ensures { ChainsHaveOneValue }
{}
