//! Lines that begin an event, and the last line.
ghost use Rattle.std.specs.Prelude.{◌≡◌, ℕ, ◌+◌, ◌==◌, ◌&&◌, ◌≤◌, not, if◌then◌else◌, false, length, None, Some, IfOk, OnOk};
ghost use Rattle.std.specs.Option.{option_copied};
ghost use Rattle.transcript_next.specs.Overs.{is_over_by};
ghost use Rattle.line_text.specs.declared.line.Line.TheVariants as a_line;
ghost use Rattle.transcript_rules.specs.Opening.{Opening as AnOpening, Schedule};
ghost use Rattle.transcript_rules.specs.Book.{Book as ABook};
ghost use Rattle.transcript_next.specs.Nexts.{coming_of, scheduled};
ghost use Rattle.transcript_judges.specs.Tests.{is_none};
ghost use Rattle.transcript_checker.specs.Standing.{Stands, Judges, HasRoom};
ghost use Rattle.transcript_checker.specs.Beginning.{Begins, arriving, cuts_by, is_arrival, is_coming, is_end_of, replies_by};

use crate::checker::Checker;
use event_text::Event;
use fs_rules::Geometry;
use line_text::Line;
use sfs_base::NoMemory;
use std::alloc::Global;
use transcript_facts::{Facts, Now};
use transcript_judges::is_next;
use transcript_next::{Comes, is_event, is_over, next_event};
use transcript_telling::{begin, happen, note};
use transcript_trees::{Cuts, Replies};

impl Checker {
    /// Judges `do arrive`.
    pub(crate) fn arrive(
        &mut self,
        alloc: Global,
        events: &[Event],
        number: u64,
        node: u32,
    ) -> Result<bool, NoMemory>
        requires room { HasRoom self.old }
        requires taken { self.old.facts.taken ≤ length events.now }
        ensures { (o : AnOpening) (n : ℕ) (book : ABook) → Stands o (scheduled events.now) n book self.old → book.closed ≡ false
            → Judges o (scheduled events.now) n book (a_line.DoArrive number node) self.new result }
    {
        if !is_ready(alloc, self.geometry, &self.facts, number)? {
            return Ok(false);
        }
        let next = next_event(self.geometry, &mut self.facts, events);
        let Some(event) = arriving(next.comes, node) else {
            return Ok(false);
        };
        self.begin(alloc, next.taken, next.drained, event)?;
        Ok(true)
    }

    /// Judges `do` with another event.
    pub(crate) fn begin_told(
        &mut self,
        alloc: Global,
        events: &[Event],
        told: &Event,
    ) -> Result<bool, NoMemory>
        requires room { HasRoom self.old }
        requires taken { self.old.facts.taken ≤ length events.now }
        ensures { (o : AnOpening) (n : ℕ) (book : ABook) → Stands o (scheduled events.now) n book self.old → book.closed ≡ false
            → Judges o (scheduled events.now) n book (a_line.DoEvent told.now) self.new result }
    {
        if !is_over(alloc, self.geometry, &self.facts)? {
            return Ok(false);
        }
        let next = next_event(self.geometry, &mut self.facts, events);
        if !begins(next.comes, told) {
            return Ok(false);
        }
        self.begin(alloc, next.taken, next.drained, told)?;
        Ok(true)
    }

    /// Judges `end`.
    pub(crate) fn end(
        &mut self,
        alloc: Global,
        events: &[Event],
        line: &Line,
    ) -> Result<bool, NoMemory>
        requires room { HasRoom self.old }
        requires taken { self.old.facts.taken ≤ length events.now }
        requires line { line.now ≡ a_line.End }
        ensures { (o : AnOpening) (n : ℕ) (book : ABook) → Stands o (scheduled events.now) n book self.old → book.closed ≡ false
            → Judges o (scheduled events.now) n book a_line.End self.new result }
    {
        if !is_over(alloc, self.geometry, &self.facts)? {
            return Ok(false);
        }
        let next = next_event(self.geometry, &mut self.facts, events);
        if !is_coming(next.comes, &Event::End) {
            return Ok(false);
        }
        note(&mut self.facts, line)?;
        Ok(true)
    }

    /// Judges `refused`.
    pub(crate) fn refuse(
        &mut self,
        alloc: Global,
        events: &[Event],
        line: &Line,
        number: u64,
    ) -> Result<bool, NoMemory>
        requires room { HasRoom self.old }
        requires taken { self.old.facts.taken ≤ length events.now }
        requires line { line.now ≡ a_line.Refused number }
        ensures { (o : AnOpening) (n : ℕ) (book : ABook) → Stands o (scheduled events.now) n book self.old → book.closed ≡ false
            → Judges o (scheduled events.now) n book (a_line.Refused number) self.new result }
    {
        if !is_over(alloc, self.geometry, &self.facts)? {
            return Ok(false);
        }
        let next = next_event(self.geometry, &mut self.facts, events);
        if !is_refused(next.comes, next.taken, number) {
            return Ok(false);
        }
        note(&mut self.facts, line)?;
        Ok(true)
    }

    // The next event begins, and does what it does.
    fn begin(
        &mut self,
        alloc: Global,
        taken: usize,
        drained: u32,
        event: &Event,
    ) -> Result<(), NoMemory>
        requires { HasRoom self.old }
        ensures { OnOk result (Begins self.old taken drained event.now self.new) }
    {
        begin(alloc, &mut self.facts, taken, drained, Now::of(event));
        happen(&mut self.facts, event)?;
        come(&mut self.replies, event)?;
        begin_cut(&mut self.cuts, event)
    }
}

// Makes a place for the reply of an arrival that comes.
fn come(replies: &mut Replies, event: &Event) -> Result<(), NoMemory>
    ensures { OnOk result (replies.new ≡ replies_by event.now replies.old) }
{
    match event {
        Event::Arrive { .. } => replies.come(),
        Event::Cluster { .. }
        | Event::Deliver { .. }
        | Event::Drain { .. }
        | Event::Lose { .. }
        | Event::GiveUp { .. }
        | Event::Resend { .. }
        | Event::Crash { .. }
        | Event::Start { .. }
        | Event::Sweep { .. }
        | Event::Checkpoint { .. }
        | Event::Backup
        | Event::Show { .. }
        | Event::End => Ok(()),
    }
}

// Makes a place for the cut of a backup that begins.
fn begin_cut(cuts: &mut Cuts, event: &Event) -> Result<(), NoMemory>
    ensures { OnOk result (cuts.new.trees.items ≡ cuts_by event.now cuts.old.trees.items) }
{
    match event {
        Event::Backup => cuts.begin(),
        Event::Cluster { .. }
        | Event::Arrive { .. }
        | Event::Deliver { .. }
        | Event::Drain { .. }
        | Event::Lose { .. }
        | Event::GiveUp { .. }
        | Event::Resend { .. }
        | Event::Crash { .. }
        | Event::Start { .. }
        | Event::Sweep { .. }
        | Event::Checkpoint { .. }
        | Event::Show { .. }
        | Event::End => Ok(()),
    }
}

// Whether the event that runs is over, and an arrival with this number is the next.
fn is_ready(alloc: Global, geometry: Geometry, facts: &Facts, number: u64) -> Result<bool, NoMemory>
    ensures { IfOk result (λ ready. ready ≡ (is_over_by geometry facts.now && (number == length facts.now.arrivals + 1))) }
{
    Ok(is_over(alloc, geometry, facts)? && is_next(facts.arrivals.len() as u64, number))
}

// The event that comes, where it is an arrival at this node.
fn arriving<'a>(comes: Comes<'a>, node: u32) -> Option<&'a Event>
    ensures { option_copied result ≡ arriving node (coming_of comes.entry) }
{
    match comes {
        Comes::Event(event) => if_arrival(event, node),
        Comes::Delivered { .. } | Comes::Nothing => None,
    }
}

fn if_arrival(event: &Event, node: u32) -> Option<&Event>
    ensures { option_copied result ≡ (if is_arrival event.now node then Some event.now else None) }
{
    if is_arrival(event, node) {
        Some(event)
    } else {
        None
    }
}

// Whether an event is an arrival at this node.
fn is_arrival(event: &Event, node: u32) -> bool
    ensures { result ≡ is_arrival event.now node }
{
    match event {
        Event::Arrive { node: other, .. } => *other == node,
        _ => false,
    }
}

// Whether an event is the end.
fn is_end(event: &Event) -> bool
    ensures { result ≡ is_end_of event.now }
{
    matches!(event, Event::End)
}

// Whether this event comes, and is not the end.
fn begins(comes: Comes<'_>, event: &Event) -> bool
    ensures { result ≡ (not (is_end_of event.now) && is_coming event.now (coming_of comes.entry)) }
{
    !is_end(event) && is_coming(comes, event)
}

// Whether this event comes.
fn is_coming(comes: Comes<'_>, event: &Event) -> bool
    ensures { result ≡ is_coming event.now (coming_of comes.entry) }
{
    match comes {
        Comes::Event(coming) => is_event(coming, event),
        Comes::Delivered { k } => is_event(&Event::Deliver { k, stop: None }, event),
        Comes::Nothing => false,
    }
}

// Whether nothing comes, and the line with this number is the next behind those that are used up.
fn is_refused(comes: Comes<'_>, taken: usize, number: u64) -> bool
    ensures { result ≡ (is_none (coming_of comes.entry) && (number == taken + 1)) }
{
    matches!(comes, Comes::Nothing) && is_next(taken as u64, number)
}
