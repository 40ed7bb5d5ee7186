//! What a message says.
ghost use Rattle.std.specs.Prelude.{◌≡◌};
ghost use Rattle.transcript_judges.specs.Tests.{holds_of, is_forced, is_held_locked, is_locked, is_lost, is_mismatch, is_vote_held, is_whole};

use line_text::SentKind;

/// Whether it is a vote that found another content.
pub(crate) fn is_mismatch(words: Option<SentKind>) -> bool
    ensures { result ≡ holds_of is_mismatch words }
{
    matches!(words, Some(SentKind::VoteMismatch))
}

/// Whether it is a vote that found something held.
pub(crate) fn is_locked(words: Option<SentKind>) -> bool
    ensures { result ≡ holds_of is_locked words }
{
    matches!(words, Some(SentKind::VoteLocked))
}

/// Whether it is a vote of a memory node that was held.
pub(crate) fn is_vote_held(words: Option<SentKind>) -> bool
    ensures { result ≡ holds_of is_vote_held words }
{
    matches!(words, Some(SentKind::VoteHeld))
}

/// Whether it is a vote that was forced.
pub(crate) fn is_forced(words: Option<SentKind>) -> bool
    ensures { result ≡ holds_of is_forced words }
{
    matches!(words, Some(SentKind::VoteForced))
}

/// Whether it says that a hold found something held.
pub(crate) fn is_held_locked(words: Option<SentKind>) -> bool
    ensures { result ≡ holds_of is_held_locked words }
{
    matches!(words, Some(SentKind::HeldLocked))
}

/// Whether it says that a cut was lost.
pub(crate) fn is_lost(words: Option<SentKind>) -> bool
    ensures { result ≡ holds_of is_lost words }
{
    matches!(words, Some(SentKind::HeldPast | SentKind::PieceNone))
}

/// Whether it says that a cut is held, or has a piece of it.
pub(crate) fn is_whole(words: Option<SentKind>) -> bool
    ensures { result ≡ holds_of is_whole words }
{
    matches!(words, Some(SentKind::HeldOk | SentKind::Piece))
}
