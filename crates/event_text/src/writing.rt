//! Writing the line of an event: its words, with one space between two.
ghost use Rattle.std.specs.Prelude.{◌≡◌, [], ◌∷◌, ◌++◌, codes, decimal, OnOk, OnErr, IfOk};
ghost use Rattle.line_words.specs.Words.{text_of_words, HasDatagramLength};
ghost use Rattle.event_text.specs.declared.event.Event.TheVariants as events;
ghost use Rattle.event_text.specs.Grammar.{IsTypedEvent, IsWritableEvent, IsNoMemoryNode, IsTypedActor, IsTypedChoice, actor_words, who_words, choice_words, start_words, stop_words, HasEventSpelling, spelling_of_event};

use crate::event::Event;
use crate::names;
use crate::start_choice::StartChoice;
use line_words::{Word, append_words};
use mini_tx::Actor;
use sfs_base::NoMemory;
use std::alloc::Global;

/// Writes the line of an event at the end of `out`, without a newline. The bytes of the event are 1 to
/// [`MAX_DATAGRAM_BYTES`](crate::MAX_DATAGRAM_BYTES), and its actor is one that it may name. [`NoMemory`]: there
/// is no memory for the line, and `out` holds what it held.
#[tactic(auto, unfolding(crate::specs::Grammar::spelling_of_event, crate::specs::Grammar::event_words))]
pub fn append_line(out: &mut Vec<u8>, event: &Event) -> Result<(), NoMemory>
    requires { IsWritableEvent event.now }
    ensures spelled { HasEventSpelling event.now }
    ensures ok { OnOk result (out.new.items ≡ out.old.items ++ spelling_of_event event.now) }
    ensures err { OnErr result (out.new.items ≡ out.old.items) }
{
    match event {
        Event::Cluster {
            nodes,
            memories,
            blocks,
            inodes,
        } => append_words(
            out,
            &[
                Word::Name(names::CLUSTER),
                Word::Number(u64::from(*nodes)),
                Word::Number(u64::from(*memories)),
                Word::Number(u64::from(*blocks)),
                Word::Number(u64::from(*inodes)),
            ],
        ),
        Event::Arrive {
            node,
            sec,
            usec,
            bytes,
        } => append_arrive(out, *node, *sec, *usec, bytes.as_slice()),
        Event::Deliver { k, stop } => append_deliver(out, *k, *stop),
        Event::Drain { count } => append_counted(out, names::DRAIN, u64::from(*count)),
        Event::Lose { k } => append_counted(out, names::LOSE, *k),
        Event::GiveUp { who } => append_who(out, names::GIVE_UP, *who),
        Event::Resend { who } => append_who(out, names::RESEND, *who),
        Event::Crash { who } => append_crash(out, *who),
        Event::Start { who, choice } => append_start(out, *who, *choice),
        Event::Sweep { memory } => append_counted(out, names::SWEEP, u64::from(*memory)),
        Event::Checkpoint { memory } => append_counted(out, names::CHECKPOINT, u64::from(*memory)),
        Event::Backup => append_words(out, &[Word::Name(names::BACKUP)]),
        Event::Show { number } => append_counted(out, names::SHOW, u64::from(*number)),
        Event::End => append_words(out, &[Word::Name(names::END)]),
    }
}

/// The line of an event, without a newline, as [`append_line`] writes it. [`NoMemory`]: there is no
/// memory for the line.
pub fn write_line(alloc: Global, event: &Event) -> Result<Vec<u8>, NoMemory>
    requires { IsWritableEvent event.now }
    ensures spelled { HasEventSpelling event.now }
    ensures text { IfOk result (λ text. text.items ≡ spelling_of_event event.now) }
{
    let mut text = Vec::new(alloc);
    append_line(&mut text, event)?;
    Ok(text)
}

#[tactic(auto, unfolding(crate::specs::Grammar::spelling_of_event, crate::specs::Grammar::event_words))]
fn append_arrive(
    out: &mut Vec<u8>,
    node: u32,
    sec: u32,
    usec: u32,
    bytes: &[u8],
) -> Result<(), NoMemory>
    requires { HasDatagramLength bytes.now }
    ensures typed { IsTypedEvent (events.Arrive node sec usec bytes.now) }
    ensures ok { OnOk result (out.new.items ≡ out.old.items ++ spelling_of_event (events.Arrive node sec usec bytes.now)) }
    ensures err { OnErr result (out.new.items ≡ out.old.items) }
{
    append_words(
        out,
        &[
            Word::Name(names::ARRIVE),
            Word::Number(u64::from(node)),
            Word::Number(u64::from(sec)),
            Word::Number(u64::from(usec)),
            Word::Hex(bytes),
        ],
    )
}

fn append_deliver(out: &mut Vec<u8>, k: u64, stop: Option<u32>) -> Result<(), NoMemory>
    ensures typed { IsTypedEvent (events.Deliver k stop) }
    ensures ok { OnOk result (out.new.items ≡ out.old.items ++ text_of_words (codes "deliver" ∷ decimal k ∷ stop_words stop)) }
    ensures err { OnErr result (out.new.items ≡ out.old.items) }
{
    let name = Word::Name(names::DELIVER);
    match stop {
        None => append_words(out, &[name, Word::Number(k)]),
        Some(calls) => append_words(
            out,
            &[
                name,
                Word::Number(k),
                Word::Name(names::STOP),
                Word::Number(u64::from(calls)),
            ],
        ),
    }
}

// A line of a name and a number.
fn append_counted(out: &mut Vec<u8>, name: &[u8], n: u64) -> Result<(), NoMemory>
    ensures ok { OnOk result (out.new.items ≡ out.old.items ++ text_of_words (name.now ∷ decimal n ∷ [])) }
    ensures err { OnErr result (out.new.items ≡ out.old.items) }
{
    append_words(out, &[Word::Name(name), Word::Number(n)])
}

// A line of a name and a node, which goes without its kind, or the manager.
fn append_who(out: &mut Vec<u8>, name: &[u8], who: Actor) -> Result<(), NoMemory>
    requires { IsNoMemoryNode who }
    ensures typed { IsTypedActor who }
    ensures ok { OnOk result (out.new.items ≡ out.old.items ++ text_of_words (name.now ∷ who_words who)) }
    ensures err { OnErr result (out.new.items ≡ out.old.items) }
{
    let name = Word::Name(name);
    match who {
        Actor::Node(n) => append_words(out, &[name, Word::Number(u64::from(n))]),
        Actor::Manager => append_words(out, &[name, Word::Name(names::MANAGER)]),
        Actor::Memory(_) => unreachable!(),
    }
}

fn append_crash(out: &mut Vec<u8>, who: Actor) -> Result<(), NoMemory>
    ensures typed { IsTypedActor who }
    ensures ok { OnOk result (out.new.items ≡ out.old.items ++ text_of_words (codes "crash" ∷ actor_words who)) }
    ensures err { OnErr result (out.new.items ≡ out.old.items) }
{
    let name = Word::Name(names::CRASH);
    match who {
        Actor::Node(n) => append_words(
            out,
            &[name, Word::Name(names::NODE), Word::Number(u64::from(n))],
        ),
        Actor::Memory(m) => append_words(
            out,
            &[name, Word::Name(names::MEMORY), Word::Number(u64::from(m))],
        ),
        Actor::Manager => append_words(out, &[name, Word::Name(names::MANAGER)]),
    }
}

fn append_start(out: &mut Vec<u8>, who: Actor, choice: StartChoice) -> Result<(), NoMemory>
    ensures typed { IsTypedActor who × IsTypedChoice choice }
    ensures ok { OnOk result (out.new.items ≡ out.old.items ++ text_of_words (codes "start" ∷ start_words who choice)) }
    ensures err { OnErr result (out.new.items ≡ out.old.items) }
{
    let name = Word::Name(names::START);
    match who {
        Actor::Node(n) => append_words(
            out,
            &[name, Word::Name(names::NODE), Word::Number(u64::from(n))],
        ),
        Actor::Memory(m) => append_memory_start(out, m, choice),
        Actor::Manager => append_words(out, &[name, Word::Name(names::MANAGER)]),
    }
}

fn append_memory_start(out: &mut Vec<u8>, m: u32, choice: StartChoice) -> Result<(), NoMemory>
    ensures typed { IsTypedChoice choice }
    ensures ok { OnOk result (out.new.items ≡ out.old.items ++ text_of_words (codes "start" ∷ codes "memory" ∷ decimal m ∷ choice_words choice)) }
    ensures err { OnErr result (out.new.items ≡ out.old.items) }
{
    let name = Word::Name(names::START);
    let kind = Word::Name(names::MEMORY);
    let m = Word::Number(u64::from(m));
    match choice {
        StartChoice::Old => append_words(out, &[name, kind, m, Word::Name(names::OLD)]),
        StartChoice::New => append_words(out, &[name, kind, m, Word::Name(names::NEW)]),
        StartChoice::Fill(byte) => append_words(
            out,
            &[name, kind, m, Word::Name(names::FILL), Word::Hex(&[byte])],
        ),
    }
}
