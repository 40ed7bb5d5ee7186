//! The law of replies.
ghost use Rattle.reply_laws.specs.Laws.{GrantedFinalsAnswer};

/// What a final that keeps its promise reads where it matches makes an answer that a client can be told.
pub fn granted_finals_answer()
    ensures { GrantedFinalsAnswer }
{}
