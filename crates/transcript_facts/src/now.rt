ghost use Rattle.std.specs.Prelude.{◌≡◌, Some};
ghost use Rattle.transcript_facts.specs.Now.{now_of, started_by};

use event_text::Event;
use mini_tx::Actor;

/// What is asked of the event whose lines stand last.
#[derive(Clone, Copy, Debug, PartialEq, Eq)]
pub enum Now {
    /// There was no event.
    Nothing,
    /// A datagram came.
    Arrive,
    /// This message is delivered.
    Deliver { k: u64 },
    /// An actor is told to give up.
    GiveUp { who: Actor },
    /// An actor posts its messages again.
    Resend,
    /// A memory node starts.
    StartMemory { memory: u32 },
    /// The archive of this backup is mounted.
    Show { number: u32 },
    /// Any other.
    Other,
}

impl Now {
    /// What is asked of this event.
    pub fn of(event: &Event) -> Now
        ensures { result ≡ now_of (Some event.now) }
    {
        match event {
            Event::Arrive { .. } => Now::Arrive,
            Event::Deliver { k, .. } => Now::Deliver { k: *k },
            Event::GiveUp { who } => Now::GiveUp { who: *who },
            Event::Resend { .. } => Now::Resend,
            Event::Start { who, .. } => started(*who),
            Event::Show { number } => Now::Show { number: *number },
            Event::Cluster { .. }
            | Event::Drain { .. }
            | Event::Lose { .. }
            | Event::Crash { .. }
            | Event::Sweep { .. }
            | Event::Checkpoint { .. }
            | Event::Backup
            | Event::End => Now::Other,
        }
    }
}

// What is asked of a start.
fn started(who: Actor) -> Now
    ensures { result ≡ started_by who }
{
    match who {
        Actor::Memory(memory) => Now::StartMemory { memory },
        Actor::Node(_) | Actor::Manager => Now::Other,
    }
}
