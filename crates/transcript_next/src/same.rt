//! Whether one event is another.
ghost use Rattle.std.specs.Prelude.{◌≡◌};
ghost use Rattle.transcript_next.specs.Same.{is_choice, is_event, is_stop};

use event_text::{Event, StartChoice};
use transcript_checks::is_actor;

/// Whether one event is another.
pub fn is_event(event: &Event, other: &Event) -> bool
    ensures { result ≡ is_event event.now other.now }
{
    match event {
        Event::Cluster {
            nodes,
            memories,
            blocks,
            inodes,
        } => match other {
            Event::Cluster {
                nodes: other_nodes,
                memories: other_memories,
                blocks: other_blocks,
                inodes: other_inodes,
            } => {
                nodes == other_nodes
                    && memories == other_memories
                    && blocks == other_blocks
                    && inodes == other_inodes
            }
            _ => false,
        },
        Event::Arrive {
            node,
            sec,
            usec,
            bytes,
        } => match other {
            Event::Arrive {
                node: other_node,
                sec: other_sec,
                usec: other_usec,
                bytes: other_bytes,
            } => {
                node == other_node
                    && sec == other_sec
                    && usec == other_usec
                    && bytes.as_slice() == other_bytes.as_slice()
            }
            _ => false,
        },
        Event::Deliver { k, stop } => match other {
            Event::Deliver {
                k: other_k,
                stop: other_stop,
            } => k == other_k && is_stop(*stop, *other_stop),
            _ => false,
        },
        Event::Drain { count } => match other {
            Event::Drain { count: other_count } => count == other_count,
            _ => false,
        },
        Event::Lose { k } => match other {
            Event::Lose { k: other_k } => k == other_k,
            _ => false,
        },
        Event::GiveUp { who } => match other {
            Event::GiveUp { who: other_who } => is_actor(*who, *other_who),
            _ => false,
        },
        Event::Resend { who } => match other {
            Event::Resend { who: other_who } => is_actor(*who, *other_who),
            _ => false,
        },
        Event::Crash { who } => match other {
            Event::Crash { who: other_who } => is_actor(*who, *other_who),
            _ => false,
        },
        Event::Start { who, choice } => match other {
            Event::Start {
                who: other_who,
                choice: other_choice,
            } => is_actor(*who, *other_who) && is_choice(*choice, *other_choice),
            _ => false,
        },
        Event::Sweep { memory } => match other {
            Event::Sweep {
                memory: other_memory,
            } => memory == other_memory,
            _ => false,
        },
        Event::Checkpoint { memory } => match other {
            Event::Checkpoint {
                memory: other_memory,
            } => memory == other_memory,
            _ => false,
        },
        Event::Backup => matches!(other, Event::Backup),
        Event::Show { number } => match other {
            Event::Show {
                number: other_number,
            } => number == other_number,
            _ => false,
        },
        Event::End => matches!(other, Event::End),
    }
}

fn is_stop(stop: Option<u32>, other: Option<u32>) -> bool
    ensures { result ≡ is_stop stop other }
{
    match stop {
        None => other.is_none(),
        Some(calls) => match other {
            None => false,
            Some(others) => calls == others,
        },
    }
}

fn is_choice(choice: StartChoice, other: StartChoice) -> bool
    ensures { result ≡ is_choice choice other }
{
    match choice {
        StartChoice::Old => matches!(other, StartChoice::Old),
        StartChoice::New => matches!(other, StartChoice::New),
        StartChoice::Fill(byte) => match other {
            StartChoice::Fill(filled) => byte == filled,
            _ => false,
        },
    }
}
