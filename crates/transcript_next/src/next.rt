//! The next event of a schedule.
ghost use Rattle.std.specs.Prelude.{◌≡◌, ◌+◌, ◌≤◌, ◌<◌, ◌^◌, length, drop, IfSome};
ghost use Rattle.transcript_rules.specs.Next.{drain_or, least_from};
ghost use Rattle.transcript_next.specs.Nexts.{IsNext, IsNextAt, came_if, drain_of, drained_at, next_at, next_by, refused_at, scheduled};

use crate::coming::{is_million, may_come};
use event_text::Event;
use fs_rules::Geometry;
use transcript_facts::Facts;

/// What comes next.
#[derive(Clone, Copy)]
pub enum Comes<'a> {
    /// The next line is missing, or excluded.
    Nothing,
    /// A drain delivers this message.
    Delivered { k: u64 },
    /// This event of the schedule.
    Event(&'a Event),
}

/// What comes next, and what of the schedule is used up with it.
#[derive(Clone, Copy)]
pub struct Next<'a> {
    pub taken: usize,
    pub drained: u32,
    pub comes: Comes<'a>,
}

/// The next event of a schedule behind what the lines so far used up of it: a drain that has made all its deliveries, or
/// finds nothing to deliver, is stepped over. It takes no memory.
pub fn next_event<'a>(geometry: Geometry, facts: &mut Facts, events: &'a [Event]) -> Next<'a>
    requires { facts.old.taken ≤ length events.now }
    ensures next { IsNext (next_by geometry facts.old facts.old.taken facts.old.drained (drop facts.old.taken (scheduled events.now))) result }
    ensures within { result.taken ≤ length events.now }
    ensures same { facts.new ≡ facts.old }
{
    let mut taken = facts.taken;
    let mut drained = facts.drained;
    while taken < events.len() {
        if let Some(next) = next_at(geometry, facts, taken, drained, &events[taken]) {
            return next;
        }
        taken += 1;
        drained = 0;
    }
    nothing(taken)
}

// What comes where the next line is this event; `None` where that is a drain which is stepped over.
fn next_at<'a>(
    geometry: Geometry,
    facts: &mut Facts,
    taken: usize,
    drained: u32,
    event: &'a Event,
) -> Option<Next<'a>>
    requires { taken + 1 < 2 ^ 64 }
    ensures next { IsNextAt (next_at geometry facts.old taken drained event.now (drain_of event.now)) result }
    ensures within { IfSome result (λ n. n.taken ≤ taken + 1) }
    ensures same { facts.new ≡ facts.old }
{
    match drain_of(event) {
        Some(count) => next_of_drain(facts, taken, drained, count),
        None => Some(next_of(may_come(geometry, facts, event), taken, event)),
    }
}

// What comes where the next line is an event that may come or not.
fn next_of<'a>(may: bool, taken: usize, event: &'a Event) -> Next<'a>
    requires { taken + 1 < 2 ^ 64 }
    ensures next { IsNext (came_if may taken event.now) result }
    ensures within { result.taken ≤ taken + 1 }
{
    if may {
        Next {
            taken: taken + 1,
            drained: 0,
            comes: Comes::Event(event),
        }
    } else {
        nothing(taken)
    }
}

// What comes where the next line is a drain of so many; `None` where it is stepped over.
fn next_of_drain<'a>(facts: &mut Facts, taken: usize, drained: u32, count: u32) -> Option<Next<'a>>
    ensures next { IsNextAt (drained_at facts.old taken drained count) result }
    ensures within { IfSome result (λ n. n.taken ≤ taken) }
    ensures same { facts.new ≡ facts.old }
{
    if !is_million(count) {
        return Some(nothing(taken));
    }
    if drained >= count {
        return None;
    }
    next_delivery(taken, drained, least(facts))
}

// The delivery of this message, if there is one.
fn next_delivery<'a>(taken: usize, drained: u32, k: Option<u64>) -> Option<Next<'a>>
    requires { drained + 1 < 2 ^ 32 }
    ensures next { IsNextAt (drain_or taken drained k) result }
    ensures within { IfSome result (λ n. n.taken ≤ taken) }
{
    match k {
        Some(k) => Some(Next {
            taken,
            drained: drained + 1,
            comes: Comes::Delivered { k },
        }),
        None => None,
    }
}

// The least message that waits.
fn least(facts: &mut Facts) -> Option<u64>
    ensures least { result ≡ least_from 1 facts.old.mail }
    ensures same { facts.new ≡ facts.old }
{
    facts.mail.least()
}

// Nothing comes behind these lines.
fn nothing<'a>(taken: usize) -> Next<'a>
    ensures taken { result.taken ≡ taken }
    ensures next { IsNext (refused_at taken) result }
{
    Next {
        taken,
        drained: 0,
        comes: Comes::Nothing,
    }
}

// The count of a drain.
fn drain_of(event: &Event) -> Option<u32>
    ensures { result ≡ drain_of event.now }
{
    match event {
        Event::Drain { count } => Some(*count),
        _ => None,
    }
}
