//! What readers take is what the items are spelled as, and nothing else.
ghost use Rattle.sfs_xdr.specs.Laws.{WordIsExact, BooleanIsExact, OpaqueIsExact, OpaqueMaxIsExact, WritersAreInTheGrammar};

/// Reading a number takes the four bytes of a number below 2^32 and nothing else.
pub fn word_is_exact()
    ensures { WordIsExact }
{}

/// Reading a boolean takes the number 0 or 1 and nothing else.
pub fn boolean_is_exact()
    ensures { BooleanIsExact }
{}

/// Reading `n` bytes takes them with what fills them up, and nothing else.
pub fn opaque_is_exact()
    ensures { OpaqueIsExact }
{}

/// Reading bytes behind their length takes at most the limit of them, with what fills them up, and nothing else.
pub fn opaque_max_is_exact()
    ensures { OpaqueMaxIsExact }
{}

/// What a writer spells is what a reader takes.
pub fn writers_are_in_the_grammar()
    ensures { WritersAreInTheGrammar }
{}
