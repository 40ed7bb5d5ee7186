//! Whether an event may come.
ghost use Rattle.std.specs.Prelude.{◌≡◌};
ghost use Rattle.std.specs.Option.{option_copied};
ghost use Rattle.transcript_rules.specs.Next.{is_million};
ghost use Rattle.transcript_next.specs.Coming.{comes_by, gives_up_by, is_done, is_to_memory};

use event_text::Event;
use fs_rules::Geometry;
use mini_tx::Actor;
use transcript_checks::{is_memory, is_there};
use transcript_facts::Facts;
use transcript_rules::{Backup, Post};

/// How many arrivals there may be.
const MOST_ARRIVALS: usize = u32::MAX as usize;

/// The most deliveries of a drain, and the last call that a delivery may stop at.
const MILLION: u32 = 1_000_000;

/// Whether an event is not excluded by what the lines so far tell. A drain is none that may come: it is spelled out
/// before.
pub(crate) fn may_come(geometry: Geometry, facts: &Facts, event: &Event) -> bool
    ensures { result ≡ comes_by geometry facts.now event.now }
{
    match event {
        Event::Cluster { .. } | Event::Drain { .. } => false,
        Event::Arrive { node, .. } => {
            *node < geometry.nodes && facts.arrivals.len() < MOST_ARRIVALS
        }
        Event::Deliver { k, stop: None } => facts.mail.get(*k).is_some(),
        Event::Deliver {
            k,
            stop: Some(calls),
        } => is_to_memory(facts.mail.get(*k)) && is_million(*calls),
        Event::Lose { k } => facts.mail.get(*k).is_some(),
        Event::GiveUp { who } => may_give_up(geometry, facts, *who),
        Event::Resend { who } | Event::Crash { who } => {
            is_there(geometry, *who) && !facts.down.contains(*who)
        }
        Event::Start { who, .. } => is_there(geometry, *who) && facts.down.contains(*who),
        Event::Sweep { memory } => {
            *memory < geometry.memories && !facts.down.contains(Actor::Manager)
        }
        Event::Checkpoint { memory } => {
            *memory < geometry.memories && !facts.down.contains(Actor::Memory(*memory))
        }
        Event::Backup => {
            !facts.down.contains(Actor::Manager) && facts.backups.running().is_none()
        }
        Event::Show { number } => is_done(facts.backups.get(u64::from(*number))),
        Event::End => true,
    }
}

// Whether a message goes to a memory node.
fn is_to_memory(post: Option<&Post>) -> bool
    ensures { result ≡ is_to_memory (option_copied post.entry) }
{
    match post {
        Some(post) => is_memory(post.to),
        None => false,
    }
}

/// Whether a number is at least 1, and at most a million.
pub(crate) fn is_million(count: u32) -> bool
    ensures { result ≡ is_million count }
{
    1 <= count && count <= MILLION
}

// Whether an actor has something that it can give up.
fn may_give_up(geometry: Geometry, facts: &Facts, who: Actor) -> bool
    ensures { result ≡ gives_up_by geometry facts.now who }
{
    match who {
        Actor::Node(node) => {
            node < geometry.nodes
                && !facts.down.contains(who)
                && facts.arrivals.running_at(node).is_some()
        }
        Actor::Memory(_) => false,
        Actor::Manager => {
            !facts.down.contains(Actor::Manager) && facts.backups.running().is_some()
        }
    }
}

// Whether a backup is done.
fn is_done(backup: Option<Backup>) -> bool
    ensures { result ≡ is_done backup }
{
    match backup {
        Some(backup) => backup.done,
        None => false,
    }
}
