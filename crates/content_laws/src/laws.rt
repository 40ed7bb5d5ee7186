//! Laws of what READLINK, READ and READDIR answer.
ghost use Rattle.content_laws.specs.Laws.{ReadAnswers, ReadDirAnswers, ReadLinkAnswers};

/// READLINK answers as the rules do.
pub fn read_link_answers()
    ensures { ReadLinkAnswers }
{}

/// READ answers as the rules do.
pub fn read_answers()
    ensures { ReadAnswers }
{}

/// READDIR answers as the rules do.
pub fn read_dir_answers()
    ensures { ReadDirAnswers }
{}
