//! Laws of what the reading procedures answer.
ghost use Rattle.read_laws.specs.Laws.{GetAttrAnswers, LookupAnswers, OwnLooksMatch, StatFsAnswers};
ghost use Rattle.read_laws.specs.Promise.{ReadFinalsKeepPromise};

/// GETATTR answers as the rules do.
pub fn get_attr_answers()
    ensures { GetAttrAnswers }
{}

/// LOOKUP answers as the rules do.
pub fn lookup_answers()
    ensures { LookupAnswers }
{}

/// STATFS answers as the rules do.
pub fn stat_fs_answers()
    ensures { StatFsAnswers }
{}

/// What was looked at and is the flat memory's own matches it.
pub fn own_looks_match()
    ensures { OwnLooksMatch }
{}

/// A final of a call that reads does what the rules say, where it matches a flat memory of which all that is held is true;
/// and it matches where all that is held is the memory's own.
pub fn read_finals_keep_promise()
    ensures { ReadFinalsKeepPromise }
{}
