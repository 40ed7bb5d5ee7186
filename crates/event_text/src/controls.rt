//! Reading what is done to actors: that they give up, crash and start, and what the manager does.
ghost use Rattle.line_words.specs.Reading.{AnswersBad, Gives};
ghost use Rattle.event_text.specs.Reading.{control_of, crash_of, start_of, who_of, choice_of, choice_for, actor_at, of_who, counted_of};
ghost use Rattle.event_text.specs.declared.event.Event.TheVariants as event;

use crate::event::Event;
use crate::names;
use crate::start_choice::StartChoice;
use line_words::{LineFault, Words};
use mini_tx::Actor;

/// Reads the event with this name that is none of those of messages, from the words behind it.
#[tactic(auto, unfolding(crate::specs::Reading::control_of))]
pub fn control_of(name: &[u8], words: &mut Words<'_>) -> Result<Event, LineFault>
    ensures { AnswersBad result (control_of name.now words.old) }
{
    if name == names::GIVE_UP {
        give_up_of(words)
    } else if name == names::RESEND {
        resend_of(words)
    } else if name == names::CRASH {
        crash_of(words)
    } else if name == names::START {
        start_of(words)
    } else if name == names::SWEEP {
        sweep_of(words)
    } else if name == names::CHECKPOINT {
        checkpoint_of(words)
    } else if name == names::BACKUP {
        words.end(Event::Backup)
    } else if name == names::SHOW {
        show_of(words)
    } else {
        Err(LineFault::Bad)
    }
}

fn give_up_of(words: &mut Words<'_>) -> Result<Event, LineFault>
    ensures { AnswersBad result (of_who event.GiveUp words.old) }
{
    let who = who_of(words)?;
    Ok(Event::GiveUp { who })
}

fn resend_of(words: &mut Words<'_>) -> Result<Event, LineFault>
    ensures { AnswersBad result (of_who event.Resend words.old) }
{
    let who = who_of(words)?;
    Ok(Event::Resend { who })
}

#[tactic(auto, unfolding(crate::specs::Reading::crash_of))]
fn crash_of(words: &mut Words<'_>) -> Result<Event, LineFault>
    ensures { AnswersBad result (crash_of words.old) }
{
    let who = actor_of(words)?;
    words.end(Event::Crash { who })
}

#[tactic(auto, unfolding(crate::specs::Reading::start_of))]
fn start_of(words: &mut Words<'_>) -> Result<Event, LineFault>
    ensures { AnswersBad result (start_of words.old) }
{
    let who = actor_of(words)?;
    let choice = choice_for(who, words)?;
    Ok(Event::Start { who, choice })
}

fn sweep_of(words: &mut Words<'_>) -> Result<Event, LineFault>
    ensures { AnswersBad result (counted_of 32 event.Sweep words.old) }
{
    let memory = words.u32()?;
    words.end(Event::Sweep { memory })
}

fn checkpoint_of(words: &mut Words<'_>) -> Result<Event, LineFault>
    ensures { AnswersBad result (counted_of 32 event.Checkpoint words.old) }
{
    let memory = words.u32()?;
    words.end(Event::Checkpoint { memory })
}

fn show_of(words: &mut Words<'_>) -> Result<Event, LineFault>
    ensures { AnswersBad result (counted_of 32 event.Show words.old) }
{
    let number = words.u32()?;
    words.end(Event::Show { number })
}

// A node, which goes without its kind, or the manager.
#[tactic(auto, unfolding(crate::specs::Reading::who_of))]
fn who_of(words: &mut Words<'_>) -> Result<Actor, LineFault>
    ensures { AnswersBad result (who_of words.old) }
{
    if words.try_skip(names::MANAGER) {
        return words.end(Actor::Manager);
    }
    let n = words.u32()?;
    words.end(Actor::Node(n))
}

/// Reads an actor that is named with its kind, and leaves the words behind it. Bad: the words name none.
#[tactic(auto, unfolding(crate::specs::Reading::actor_at))]
pub fn actor_of(words: &mut Words<'_>) -> Result<Actor, LineFault>
    ensures { Gives (λ who. who) result words.new (actor_at words.old) }
{
    let name = words.word()?;
    if name == names::NODE {
        Ok(Actor::Node(words.u32()?))
    } else if name == names::MEMORY {
        Ok(Actor::Memory(words.u32()?))
    } else if name == names::MANAGER {
        Ok(Actor::Manager)
    } else {
        Err(LineFault::Bad)
    }
}

// What the disk of this actor holds, which is said of memory nodes alone.
fn choice_for(who: Actor, words: &mut Words<'_>) -> Result<StartChoice, LineFault>
    ensures { AnswersBad result (choice_for who words.old) }
{
    match who {
        Actor::Memory(_) => choice_of(words),
        Actor::Node(_) | Actor::Manager => words.end(StartChoice::Old),
    }
}

#[tactic(auto, unfolding(crate::specs::Reading::choice_of))]
fn choice_of(words: &mut Words<'_>) -> Result<StartChoice, LineFault>
    ensures { AnswersBad result (choice_of words.old) }
{
    let name = words.word()?;
    if name == names::OLD {
        words.end(StartChoice::Old)
    } else if name == names::NEW {
        words.end(StartChoice::New)
    } else if name == names::FILL {
        Ok(StartChoice::Fill(words.last_byte()?))
    } else {
        Err(LineFault::Bad)
    }
}
