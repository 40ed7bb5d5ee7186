//! What is spelled has one value. That a value has one spelling is plain from the definitions.
ghost use Rattle.fs_layout.specs.Laws.{WordsHaveOneValue, WordsAreItems, ReferencesHaveOneValue, InodesHaveOneValue, HandlesHaveOneValue, SuperblocksHaveOneValue};

/// No bytes spell two lists of words.
pub fn words_have_one_value()
    ensures { WordsHaveOneValue }
{}

/// Words are the numbers of XDR, and are spelled as these are (RFC 1014, section 3.2).
pub fn words_are_items()
    ensures { WordsAreItems }
{}

/// No two words spell two references.
pub fn references_have_one_value()
    ensures { ReferencesHaveOneValue }
{}

/// No bytes spell two inode records.
pub fn inodes_have_one_value()
    ensures { InodesHaveOneValue }
{}

/// No bytes spell the handles of two files.
pub fn handles_have_one_value()
    ensures { HandlesHaveOneValue }
{}

/// No bytes spell two superblocks.
pub fn superblocks_have_one_value()
    ensures { SuperblocksHaveOneValue }
{}
