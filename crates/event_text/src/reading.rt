//! Reading a line of a schedule, word by word from the left.
ghost use Rattle.std.specs.Prelude.{◌≡◌, ◌↔◌, Some, None, Err, IfOk};
ghost use Rattle.line_words.specs.Reading.{Answers, AnswersBad};
ghost use Rattle.line_words.specs.declared.line_fault.LineFault.TheVariants as faults;
ghost use Rattle.event_text.specs.Grammar.{IsTold, HasEventSpelling, spelling_of_event};
ghost use Rattle.event_text.specs.Reading.{event_of, event_of_words, told_of, told_of_words, cluster_of, arrive_of, deliver_of, stop_of, counted_of};
ghost use Rattle.event_text.specs.declared.event.Event.TheVariants as event;

use crate::controls::control_of;
use crate::event::Event;
use crate::names;
use line_words::{LineFault, Words};
use std::alloc::Global;

/// Reads a line of a schedule, without its newline. Bad: the line is outside the grammar. NoMemory:
/// the line is in the grammar, and there is no memory for the bytes that it spells.
#[tactic(auto, unfolding(crate::specs::Reading::event_of))]
pub fn read_line(alloc: Global, text: &[u8]) -> Result<Event, LineFault>
    ensures found { IfOk result (λ event. event_of text.now ≡ Some event) }
    ensures spelled { IfOk result (λ event. HasEventSpelling event × (text.now ≡ spelling_of_event event)) }
    ensures bad { (result ≡ Err faults.Bad) ↔ (event_of text.now ≡ None) }
{
    event_of(alloc, &mut Words::new(text))
}

/// Reads an event from the words that are left of a line, all of them. Bad: they are those of no event.
/// NoMemory: they are those of one, and there is no memory for its bytes.
#[tactic(auto, unfolding(crate::specs::Reading::event_of_words))]
pub fn event_of(alloc: Global, words: &mut Words<'_>) -> Result<Event, LineFault>
    ensures { Answers result (event_of_words words.old) }
{
    let name = words.word()?;
    if name == names::CLUSTER {
        cluster_of(words)
    } else if name == names::ARRIVE {
        arrive_of(alloc, words)
    } else if name == names::DRAIN {
        drain_of(words)
    } else if name == names::END {
        words.end(Event::End)
    } else {
        told_of(name, words)
    }
}

/// Reads an event that a transcript tells as its line says it, from the words that are left of a line. Bad: they are
/// those of no such event.
pub fn read_told(words: &mut Words<'_>) -> Result<Event, LineFault>
    ensures exact { AnswersBad result (told_of_words words.old) }
    ensures told { IfOk result IsTold }
{
    let name = words.word()?;
    told_of(name, words)
}

#[tactic(auto, unfolding(crate::specs::Reading::told_of))]
fn told_of(name: &[u8], words: &mut Words<'_>) -> Result<Event, LineFault>
    ensures { AnswersBad result (told_of name.now words.old) }
{
    if name == names::DELIVER {
        deliver_of(words)
    } else if name == names::LOSE {
        lose_of(words)
    } else {
        control_of(name, words)
    }
}

#[tactic(auto, unfolding(crate::specs::Reading::cluster_of))]
fn cluster_of(words: &mut Words<'_>) -> Result<Event, LineFault>
    ensures { Answers result (cluster_of words.old) }
{
    let nodes = words.u32()?;
    let memories = words.u32()?;
    let blocks = words.u32()?;
    let inodes = words.u32()?;
    words.end(Event::Cluster {
        nodes,
        memories,
        blocks,
        inodes,
    })
}

#[tactic(auto, unfolding(crate::specs::Reading::arrive_of))]
fn arrive_of(alloc: Global, words: &mut Words<'_>) -> Result<Event, LineFault>
    ensures { Answers result (arrive_of words.old) }
{
    let node = words.u32()?;
    let sec = words.u32()?;
    let usec = words.u32()?;
    let bytes = words.last_bytes(alloc)?;
    Ok(Event::Arrive {
        node,
        sec,
        usec,
        bytes,
    })
}

#[tactic(auto, unfolding(crate::specs::Reading::deliver_of))]
fn deliver_of(words: &mut Words<'_>) -> Result<Event, LineFault>
    ensures { AnswersBad result (deliver_of words.old) }
{
    let k = words.u64()?;
    let stop = stop_of(words)?;
    Ok(Event::Deliver { k, stop })
}

// A stop, where one is named.
#[tactic(auto, unfolding(crate::specs::Reading::stop_of))]
fn stop_of(words: &mut Words<'_>) -> Result<Option<u32>, LineFault>
    ensures { AnswersBad result (stop_of words.old) }
{
    if !words.try_skip(names::STOP) {
        return words.end(None);
    }
    let calls = words.u32()?;
    words.end(Some(calls))
}

fn drain_of(words: &mut Words<'_>) -> Result<Event, LineFault>
    ensures { AnswersBad result (counted_of 32 event.Drain words.old) }
{
    let count = words.u32()?;
    words.end(Event::Drain { count })
}

fn lose_of(words: &mut Words<'_>) -> Result<Event, LineFault>
    ensures { AnswersBad result (counted_of 64 event.Lose words.old) }
{
    let k = words.u64()?;
    words.end(Event::Lose { k })
}
