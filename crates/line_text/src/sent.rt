//! Reading who sends a message, who receives it, and its kind.
ghost use Rattle.std.specs.Prelude.{◌≡◌};
ghost use Rattle.line_words.specs.Reading.{AnswersBad, Gives};
ghost use Rattle.line_text.specs.Reading.{mark_of, mark_at, memory_or_manager, kind_of, told_kind_of, vote_of, one_of, held_kind_of, piece_of, manager_kind_of};

use crate::names;
use crate::sent_kind::SentKind;
use line_words::{LineFault, Words, u32_of};
use mini_tx::Actor;

/// What follows the `m` of the manager's word.
const REST_OF_MANAGER: &[u8] = b"gr";

/// Reads an actor that is one word, and leaves the words behind it. Bad: the word is none.
#[tactic(auto, unfolding(crate::specs::Reading::mark_at))]
pub fn mark_of(words: &mut Words<'_>) -> Result<Actor, LineFault>
    ensures { Gives (λ who. who) result words.new (mark_at words.old) }
{
    let word = words.word()?;
    actor_of(word).ok_or(LineFault::Bad)
}

// The actor that a word is.
#[tactic(auto, unfolding(crate::specs::Reading::mark_of))]
fn actor_of(word: &[u8]) -> Option<Actor>
    ensures { result ≡ mark_of word.now }
{
    let (letter, rest) = word.split_first()?;
    match *letter {
        b'n' => Some(Actor::Node(u32_of(rest)?)),
        b'm' => memory_or_manager(rest),
        _ => None,
    }
}

// The actor whose word this is behind its `m`.
fn memory_or_manager(rest: &[u8]) -> Option<Actor>
    ensures { result ≡ memory_or_manager rest.now }
{
    if rest == REST_OF_MANAGER {
        return Some(Actor::Manager);
    }
    Some(Actor::Memory(u32_of(rest)?))
}

/// Reads the kind of a message, which ends its line.
#[tactic(auto, unfolding(crate::specs::Reading::kind_of))]
pub fn kind_of(words: &mut Words<'_>) -> Result<SentKind, LineFault>
    ensures { AnswersBad result (kind_of words.old) }
{
    let name = words.word()?;
    if name == names::PREPARE {
        words.end(SentKind::Prepare)
    } else if name == names::DONE {
        words.end(SentKind::Done)
    } else if name == names::FORGET {
        words.end(SentKind::Forget)
    } else if name == names::LIST {
        words.end(SentKind::List)
    } else {
        told_kind_of(name, words)
    }
}

// `kept`, a kind that a second word tells, or one of the manager's.
#[tactic(auto, unfolding(crate::specs::Reading::told_kind_of))]
fn told_kind_of(name: &[u8], words: &mut Words<'_>) -> Result<SentKind, LineFault>
    ensures { AnswersBad result (told_kind_of name.now words.old) }
{
    if name == names::KEPT {
        words.end(SentKind::Kept)
    } else if name == names::VOTE {
        vote_of(words)
    } else if name == names::DECIDE {
        one_of(
            words,
            names::COMMIT,
            SentKind::DecideCommit,
            names::ABORT,
            SentKind::DecideAbort,
        )
    } else {
        manager_kind_of(name, words)
    }
}

#[tactic(auto, unfolding(crate::specs::Reading::manager_kind_of))]
fn manager_kind_of(name: &[u8], words: &mut Words<'_>) -> Result<SentKind, LineFault>
    ensures { AnswersBad result (manager_kind_of name.now words.old) }
{
    if name == names::ASK {
        words.end(SentKind::Ask)
    } else if name == names::ANSWER {
        one_of(
            words,
            names::OK,
            SentKind::AnswerOk,
            names::ABORT,
            SentKind::AnswerAbort,
        )
    } else if name == names::HOLD {
        words.end(SentKind::Hold)
    } else if name == names::HELD {
        held_kind_of(words)
    } else if name == names::RELEASE {
        words.end(SentKind::Release)
    } else if name == names::DROP {
        words.end(SentKind::Drop)
    } else if name == names::READ {
        words.end(SentKind::Read)
    } else if name == names::PIECE {
        piece_of(words)
    } else {
        Err(LineFault::Bad)
    }
}

#[tactic(auto, unfolding(crate::specs::Reading::vote_of))]
fn vote_of(words: &mut Words<'_>) -> Result<SentKind, LineFault>
    ensures { AnswersBad result (vote_of words.old) }
{
    let name = words.word()?;
    if name == names::OK {
        words.end(SentKind::VoteOk)
    } else if name == names::MISMATCH {
        words.end(SentKind::VoteMismatch)
    } else if name == names::LOCKED {
        words.end(SentKind::VoteLocked)
    } else if name == names::FORCED {
        words.end(SentKind::VoteForced)
    } else if name == names::HELD {
        words.end(SentKind::VoteHeld)
    } else {
        Err(LineFault::Bad)
    }
}

// One of two kinds, by the word that tells them apart.
#[tactic(auto, unfolding(crate::specs::Reading::one_of))]
fn one_of(
    words: &mut Words<'_>,
    first: &[u8],
    x: SentKind,
    second: &[u8],
    y: SentKind,
) -> Result<SentKind, LineFault>
    ensures { AnswersBad result (one_of first.now x second.now y words.old) }
{
    let name = words.word()?;
    if name == first {
        words.end(x)
    } else if name == second {
        words.end(y)
    } else {
        Err(LineFault::Bad)
    }
}

#[tactic(auto, unfolding(crate::specs::Reading::held_kind_of))]
fn held_kind_of(words: &mut Words<'_>) -> Result<SentKind, LineFault>
    ensures { AnswersBad result (held_kind_of words.old) }
{
    let name = words.word()?;
    if name == names::OK {
        words.end(SentKind::HeldOk)
    } else if name == names::LOCKED {
        words.end(SentKind::HeldLocked)
    } else if name == names::PAST {
        words.end(SentKind::HeldPast)
    } else {
        Err(LineFault::Bad)
    }
}

fn piece_of(words: &mut Words<'_>) -> Result<SentKind, LineFault>
    ensures { AnswersBad result (piece_of words.old) }
{
    if words.try_skip(names::NONE) {
        return words.end(SentKind::PieceNone);
    }
    words.end(SentKind::Piece)
}
