//! The events of one turn, and those at the end.
ghost use Rattle.std.specs.Prelude.{◌≡◌, ◌<◌, [], ◌∷◌, ◌++◌, OnOk, IfOk};
ghost use Rattle.event_text.specs.declared.event.Event.TheVariants as drains;
ghost use Rattle.schedule_maker.specs.Making.{arrival_of, crash_events, fault_events, number_after, last_events, turn_events, after_turn};

use crate::asking::{call_of, datagram_of};
use crate::drawing::draws_of;
use crate::draws::{drawn, next_number};
use crate::turn_draws::TurnDraws;
use event_text::{Actor, Event, StartChoice};
use sfs_base::NoMemory;
use std::alloc::Global;

/// How many memory nodes there are.
const MEMORIES: u32 = 4;

/// Puts the events of the `i`-th turn, which begins with the number `x`, behind others, and gives the number after
/// it.
#[tactic(auto, unfolding(crate::specs::Making::turn_events, crate::specs::Making::after_turn))]
pub fn push_turn(alloc: Global, events: &mut Vec<Event>, i: u32, x: u64) -> Result<u64, NoMemory>
    ensures events { OnOk result (events.new.items ≡ events.old.items ++ turn_events i x) }
    ensures after { IfOk result (λ after. after ≡ after_turn x) }
{
    let turn = draws_of(x);
    let arrival = arrival_of(alloc, i, turn)?;
    push_both(events, arrival, turn.drain + 1)?;
    push_fault(events, turn.fault, turn.last)
}

// Puts an arrival and a drain behind others.
fn push_both(events: &mut Vec<Event>, arrival: Event, count: u32) -> Result<(), NoMemory>
    ensures { OnOk result (events.new.items ≡ events.old.items ++ arrival ∷ drains.Drain count ∷ []) }
{
    events.push(arrival)?;
    events.push(Event::Drain { count })?;
    Ok(())
}

// The arrival of the `i`-th turn.
fn arrival_of(alloc: Global, i: u32, turn: TurnDraws) -> Result<Event, NoMemory>
    requires { turn.name < 16 }
    ensures { IfOk result (λ event. event ≡ arrival_of i turn) }
{
    let call = call_of(alloc, turn.call, turn.name)?;
    Ok(Event::Arrive {
        node: turn.node,
        sec: i,
        usec: 0,
        bytes: datagram_of(alloc, i, &call)?,
    })
}

// Where the last draw of a turn is 0, a memory node crashes; gives the number after the turn.
#[tactic(auto, unfolding(crate::specs::Making::fault_events, crate::specs::Making::number_after))]
fn push_fault(events: &mut Vec<Event>, fault: u32, x: u64) -> Result<u64, NoMemory>
    ensures events { OnOk result (events.new.items ≡ events.old.items ++ fault_events fault x) }
    ensures after { IfOk result (λ after. after ≡ number_after fault x) }
{
    if fault != 0 {
        return Ok(x);
    }
    let next = next_number(x);
    push_crash(events, drawn(next, MEMORIES))?;
    Ok(next)
}

// A memory node crashes, starts with what it wrote, and is swept.
fn push_crash(events: &mut Vec<Event>, m: u32) -> Result<(), NoMemory>
    ensures { OnOk result (events.new.items ≡ events.old.items ++ crash_events m) }
{
    let who = Actor::Memory(m);
    events.push(Event::Crash { who })?;
    events.push(Event::Start {
        who,
        choice: StartChoice::New,
    })?;
    events.push(Event::Sweep { memory: m })?;
    Ok(())
}

/// Puts the events at the end behind others.
pub fn push_last(events: &mut Vec<Event>) -> Result<(), NoMemory>
    ensures { OnOk result (events.new.items ≡ events.old.items ++ last_events) }
{
    events.push(Event::Sweep { memory: 0 })?;
    events.push(Event::Sweep { memory: 1 })?;
    events.push(Event::Sweep { memory: 2 })?;
    events.push(Event::Sweep { memory: 3 })?;
    events.push(Event::Drain { count: 100_000 })?;
    events.push(Event::End)?;
    Ok(())
}
