//! Laws of the plain tree.
ghost use Rattle.fs_laws.specs.Laws.{FreshIsGood, GoodStaysGood, AnswersCanBeTold};
ghost use Rattle.fs_laws.specs.Words.{FreshIsInWords, WordsStayWords};

/// A cluster begins with a file system.
pub fn fresh_is_good()
    ensures { FreshIsGood }
{}

/// A file system stays one: every call whose names, path and data are bytes of a fitting length, whoever
/// sends it and whatever it asks, leaves a tree that is a file system.
pub fn good_stays_good()
    ensures { GoodStaysGood }
{}

/// Every answer of a file system is one that a client can be told: its status is one of RFC 1094, and its
/// names, its path, its data and its entries are within their limits.
pub fn answers_can_be_told()
    ensures { AnswersCanBeTold }
{}

/// A cluster begins with numbers, moments and counts that fit the words of its records, and every call of a caller and a
/// moment in words leaves such a tree: a change number that has reached its last value refuses the change, and a number
/// whose generation has is not taken again.
pub fn words_stay_words()
    ensures fresh { FreshIsInWords }
    ensures stays { WordsStayWords }
{}
