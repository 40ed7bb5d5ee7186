//! The lines under one event.
ghost use Rattle.std.specs.Prelude.{◌≡◌, ◌∷◌, ◌++◌, [], max, nat_le, List, OnOk};
ghost use Rattle.std.specs.List.{list_any};
ghost use Rattle.line_text.specs.declared.line.Line.{Line as ALine};
ghost use Rattle.transcript_rules.specs.Book.{is_actor};
ghost use Rattle.transcript_rules.specs.Place.{is_behind, is_down_line_of};
ghost use Rattle.transcript_book.specs.Sayings.{downed, with_downed};

use crate::mail::is_among;
use line_text::Line;
use mini_tx::Actor;
use sfs_base::NoMemory;
use std::alloc::Global;
use transcript_checks::{
    is_lost_line, is_mounting_line, is_retry_line, is_sent, is_sent_by_memory, rank,
};

/// What is kept of the lines under one event: what a line more, or the end of the event, asks of them.
#[derive(Debug, Drop)]
pub struct Said {
    /// There is no line.
    pub none: bool,
    /// The highest rank of a line; 0 where there is none.
    pub highest: u8,
    /// A message was lost.
    pub lost: bool,
    /// An arrival or a backup ended before it was done.
    pub retry: bool,
    /// It is said what an archive was mounted as.
    pub mounting: bool,
    /// A message was posted.
    pub sent: bool,
    /// A memory node posted one.
    pub sent_by_memory: bool,
    /// Who went down.
    pub downs: Vec<Actor>,
}

impl Said {
    ghost use Rattle.transcript_book.specs.Sayings.{AreSaid};

    /// No line. It takes no memory.
    pub fn new(alloc: Global) -> Said
        ensures { AreSaid [] result }
    {
        Said {
            none: true,
            highest: 0,
            lost: false,
            retry: false,
            mounting: false,
            sent: false,
            sent_by_memory: false,
            downs: Vec::new(alloc),
        }
    }

    /// One line more. [`NoMemory`]: there is no memory for it, and what is kept is not said.
    pub fn say(&mut self, line: &Line) -> Result<(), NoMemory>
        ensures { (lines : List ALine) → AreSaid lines self.old
            → OnOk result (AreSaid (lines ++ line.now ∷ []) self.new) }
    {
        push_downed(&mut self.downs, line)?;
        self.none = false;
        self.highest = higher(self.highest, rank(line));
        self.lost |= is_lost_line(line);
        self.retry |= is_retry_line(line);
        self.mounting |= is_mounting_line(line);
        self.sent |= is_sent(line);
        self.sent_by_memory |= is_sent_by_memory(line);
        Ok(())
    }

    /// Whether a line may stand behind these.
    pub fn may_stand(&self, line: &Line) -> bool
        ensures { (lines : List ALine) → AreSaid lines self.now → result ≡ is_behind line.now lines }
    {
        self.highest <= rank(line)
    }

    /// Whether it is said that an actor went down.
    pub fn is_downed(&self, who: Actor) -> bool
        ensures { (lines : List ALine) → AreSaid lines self.now → result ≡ list_any (is_down_line_of who) lines }
    {
        is_among(who, &self.downs)
    }
}

// Puts who goes down by a line behind the others.
fn push_downed(downs: &mut Vec<Actor>, line: &Line) -> Result<(), NoMemory>
    ensures { OnOk result (downs.new.items ≡ with_downed downs.old.items (downed line.now)) }
{
    if let Some(who) = downed(line) {
        downs.push(who)?;
    }
    Ok(())
}

fn higher(a: u8, b: u8) -> u8
    ensures { result ≡ max a b }
{
    a.max(b)
}

// Who goes down by a line.
fn downed(line: &Line) -> Option<Actor>
    ensures { result ≡ downed line.now }
{
    match line {
        Line::Down { who, .. } => Some(*who),
        _ => None,
    }
}
