//! What a message says.
ghost use Rattle.std.specs.Prelude.{◌≡◌};
ghost use Rattle.transcript_rules.specs.Carried.{is_prepare, is_granted};
ghost use Rattle.transcript_rules.specs.Cause.{is_refusal, is_hold_word, is_forcing_word};
ghost use Rattle.transcript_rules.specs.Place.{answers, is_done, is_kept, is_answer, is_held, is_piece};

use line_text::SentKind;

/// Whether it is a `prepare`.
pub fn is_prepare(words: SentKind) -> bool
    ensures { result ≡ is_prepare words }
{
    matches!(words, SentKind::Prepare)
}

/// Whether it is a vote that is granted.
pub fn is_granted(words: SentKind) -> bool
    ensures { result ≡ is_granted words }
{
    matches!(words, SentKind::VoteOk)
}

/// Whether it is a vote that is not granted.
pub fn is_refusal(words: SentKind) -> bool
    ensures { result ≡ is_refusal words }
{
    matches!(
        words,
        SentKind::VoteMismatch | SentKind::VoteLocked | SentKind::VoteForced | SentKind::VoteHeld
    )
}

/// Whether it is a `hold`.
pub fn is_hold_word(words: SentKind) -> bool
    ensures { result ≡ is_hold_word words }
{
    matches!(words, SentKind::Hold)
}

/// Whether it is an `ask` or a decision to abort.
pub fn is_forcing_word(words: SentKind) -> bool
    ensures { result ≡ is_forcing_word words }
{
    matches!(words, SentKind::Ask | SentKind::DecideAbort)
}

/// Whether it is a `done`.
pub fn is_done(words: SentKind) -> bool
    ensures { result ≡ is_done words }
{
    matches!(words, SentKind::Done)
}

/// Whether it is a `kept`.
pub fn is_kept(words: SentKind) -> bool
    ensures { result ≡ is_kept words }
{
    matches!(words, SentKind::Kept)
}

/// Whether it is an `answer`.
pub fn is_answer(words: SentKind) -> bool
    ensures { result ≡ is_answer words }
{
    matches!(words, SentKind::AnswerOk | SentKind::AnswerAbort)
}

/// Whether it is a `held`.
pub fn is_held(words: SentKind) -> bool
    ensures { result ≡ is_held words }
{
    matches!(
        words,
        SentKind::HeldOk | SentKind::HeldLocked | SentKind::HeldPast
    )
}

/// Whether it is a `piece`.
pub fn is_piece(words: SentKind) -> bool
    ensures { result ≡ is_piece words }
{
    matches!(words, SentKind::Piece | SentKind::PieceNone)
}

/// Whether a memory node answers a message of the one kind with one of the other.
pub fn answers(asked: SentKind, words: SentKind) -> bool
    ensures { result ≡ answers asked words }
{
    match asked {
        SentKind::Prepare => is_granted(words) || is_refusal(words),
        SentKind::DecideCommit | SentKind::DecideAbort => is_done(words),
        SentKind::List => is_kept(words),
        SentKind::Ask => is_answer(words),
        SentKind::Hold => is_held(words),
        SentKind::Read => is_piece(words),
        _ => false,
    }
}
