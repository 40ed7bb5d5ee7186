//! Reading a line of a transcript, word by word from the left.
ghost use Rattle.std.specs.Prelude.{◌≡◌, ◌↔◌, Some, None, Err, IfOk, IsErrOf};
ghost use Rattle.line_words.specs.Reading.{Answers, AnswersBad};
ghost use Rattle.line_words.specs.declared.line_fault.LineFault.TheVariants as faults;
ghost use Rattle.line_text.specs.Grammar.{HasLineSpelling, spelling_of_line};
ghost use Rattle.line_text.specs.Reading.{line_of, line_of_words, carried_of, do_arrive_of, do_event_of, do_of, lost_of, down_of, point_of, made_of, sent_of, reply_of};

use crate::causes::down_why_of;
use crate::line::Line;
use crate::listed::is_listed;
use crate::names;
use crate::sent::{kind_of, mark_of};
use crate::telling::ending_of;
use event_text::{actor_of, read_told};
use line_words::{LineFault, Words};
use sfs_base::Bytes;
use std::alloc::Global;

/// Reads a line of a transcript, without its newline. Bad: the line is outside the grammar. NoMemory:
/// the line is in the grammar, and there is no memory for the bytes that it spells.
#[tactic(auto, unfolding(crate::specs::Reading::line_of))]
pub fn read_out(alloc: Global, text: &[u8]) -> Result<Line, LineFault>
    ensures found { IfOk result (λ line. line_of text.now ≡ Some line) }
    ensures spelled { IfOk result (λ line. HasLineSpelling line × (text.now ≡ spelling_of_line line)) }
    ensures bad { (result ≡ Err faults.Bad) ↔ (line_of text.now ≡ None) }
{
    line_of(alloc, text)
}

#[tactic(auto, unfolding(crate::specs::Reading::line_of))]
fn line_of(alloc: Global, text: &[u8]) -> Result<Line, LineFault>
    ensures { Answers result (line_of text.now) }
{
    if is_listed(text) {
        return match Bytes::from_slice(alloc, text) {
            Ok(text) => Ok(Line::Listed(text)),
            Err(_) => Err(LineFault::NoMemory),
        };
    }
    line_of_words(alloc, &mut Words::new(text))
}

#[tactic(auto, unfolding(crate::specs::Reading::line_of_words))]
fn line_of_words(alloc: Global, words: &mut Words<'_>) -> Result<Line, LineFault>
    ensures { Answers result (line_of_words words.old) }
{
    let name = words.word()?;
    if name == names::DO {
        do_of(words)
    } else if name == names::LOST {
        lost_of(words)
    } else if name == names::DOWN {
        down_of(words)
    } else if name == names::POINT {
        point_of(words)
    } else {
        carried_of(alloc, name, words)
    }
}

// A message or a reply, or a line that ends something.
#[tactic(auto, unfolding(crate::specs::Reading::carried_of))]
fn carried_of(alloc: Global, name: &[u8], words: &mut Words<'_>) -> Result<Line, LineFault>
    ensures { Answers result (carried_of name.now words.old) }
{
    if name == names::SENT {
        sent_of(words)
    } else if name == names::REPLY {
        reply_of(alloc, words)
    } else {
        ending_of(name, words)
    }
}

#[tactic(auto, unfolding(crate::specs::Reading::do_of))]
fn do_of(words: &mut Words<'_>) -> Result<Line, LineFault>
    ensures { AnswersBad result (do_of words.old) }
{
    if words.try_skip(names::ARRIVE) {
        return do_arrive_of(words);
    }
    do_event_of(words)
}

#[tactic(auto, unfolding(crate::specs::Reading::do_arrive_of))]
fn do_arrive_of(words: &mut Words<'_>) -> Result<Line, LineFault>
    ensures { AnswersBad result (do_arrive_of words.old) }
{
    let arrival = words.u32()?;
    let node = words.u32()?;
    words.end(Line::DoArrive { arrival, node })
}

fn do_event_of(words: &mut Words<'_>) -> Result<Line, LineFault>
    ensures { AnswersBad result (do_event_of words.old) }
{
    let event = read_told(words)?;
    Ok(Line::DoEvent(event))
}

#[tactic(auto, unfolding(crate::specs::Reading::lost_of))]
fn lost_of(words: &mut Words<'_>) -> Result<Line, LineFault>
    ensures { AnswersBad result (lost_of words.old) }
{
    let k = words.u64()?;
    words.end(Line::Lost { k })
}

#[tactic(auto, unfolding(crate::specs::Reading::down_of))]
fn down_of(words: &mut Words<'_>) -> Result<Line, LineFault>
    ensures { AnswersBad result (down_of words.old) }
{
    let who = actor_of(words)?;
    let why = down_why_of(who, words)?;
    Ok(Line::Down { who, why })
}

#[tactic(auto, unfolding(crate::specs::Reading::point_of))]
fn point_of(words: &mut Words<'_>) -> Result<Line, LineFault>
    ensures { AnswersBad result (point_of words.old) }
{
    let point = words.u64()?;
    words.skip(names::ARRIVAL)?;
    let arrival = words.u32()?;
    words.skip(names::MADE)?;
    let first = words.u32()?;
    let second = words.u32()?;
    words.end(Line::Point {
        point,
        arrival,
        made: made_of(first, second),
    })
}

// The file of two numbers: none, where both are zero.
fn made_of(first: u32, second: u32) -> Option<(u32, u32)>
    ensures { result ≡ made_of first second }
{
    match (first, second) {
        (0, 0) => None,
        file => Some(file),
    }
}

#[tactic(auto, unfolding(crate::specs::Reading::sent_of))]
fn sent_of(words: &mut Words<'_>) -> Result<Line, LineFault>
    ensures { AnswersBad result (sent_of words.old) }
{
    let k = words.u64()?;
    let from = mark_of(words)?;
    let to = mark_of(words)?;
    let kind = kind_of(words)?;
    Ok(Line::Sent {
        k,
        from,
        to,
        words: kind,
    })
}

#[tactic(auto, unfolding(crate::specs::Reading::reply_of))]
fn reply_of(alloc: Global, words: &mut Words<'_>) -> Result<Line, LineFault>
    ensures { Answers result (reply_of words.old) }
{
    let arrival = words.u32()?;
    words.skip(names::AT)?;
    let at = words.u64()?;
    let bytes = words.last_bytes(alloc)?;
    Ok(Line::Reply { arrival, at, bytes })
}
