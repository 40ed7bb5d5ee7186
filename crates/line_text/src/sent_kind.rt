ghost use Rattle.std.specs.Prelude.{◌≡◌, ◌∷◌};
ghost use Rattle.line_text.specs.Grammar.{kind_words, further_word};

use crate::names;

/// The kind of a message, as its line names it.
#[derive(Clone, Copy, Debug, PartialEq, Eq)]
pub enum SentKind {
    Prepare,
    VoteOk,
    VoteMismatch,
    VoteLocked,
    VoteForced,
    VoteHeld,
    DecideCommit,
    DecideAbort,
    Done,
    Forget,
    List,
    Kept,
    Ask,
    AnswerOk,
    AnswerAbort,
    Hold,
    HeldOk,
    HeldLocked,
    HeldPast,
    Release,
    Drop,
    Read,
    Piece,
    PieceNone,
}

impl SentKind {
    /// Its one or two words.
    #[tactic(auto, unfolding(crate::specs::Grammar::kind_words))]
    pub fn names(self) -> (&'static [u8], Option<&'static [u8]>)
        ensures { kind_words self ≡ result.0.now ∷ further_word result.1 }
    {
        match self {
            SentKind::Prepare => (names::PREPARE, None),
            SentKind::VoteOk => (names::VOTE, Some(names::OK)),
            SentKind::VoteMismatch => (names::VOTE, Some(names::MISMATCH)),
            SentKind::VoteLocked => (names::VOTE, Some(names::LOCKED)),
            SentKind::VoteForced => (names::VOTE, Some(names::FORCED)),
            SentKind::VoteHeld => (names::VOTE, Some(names::HELD)),
            SentKind::DecideCommit => (names::DECIDE, Some(names::COMMIT)),
            SentKind::DecideAbort => (names::DECIDE, Some(names::ABORT)),
            SentKind::Done => (names::DONE, None),
            SentKind::Forget => (names::FORGET, None),
            SentKind::List => (names::LIST, None),
            SentKind::Kept => (names::KEPT, None),
            SentKind::Ask => (names::ASK, None),
            SentKind::AnswerOk => (names::ANSWER, Some(names::OK)),
            SentKind::AnswerAbort => (names::ANSWER, Some(names::ABORT)),
            SentKind::Hold => (names::HOLD, None),
            SentKind::HeldOk => (names::HELD, Some(names::OK)),
            SentKind::HeldLocked => (names::HELD, Some(names::LOCKED)),
            SentKind::HeldPast => (names::HELD, Some(names::PAST)),
            SentKind::Release => (names::RELEASE, None),
            SentKind::Drop => (names::DROP, None),
            SentKind::Read => (names::READ, None),
            SentKind::Piece => (names::PIECE, None),
            SentKind::PieceNone => (names::PIECE, Some(names::NONE)),
        }
    }
}
