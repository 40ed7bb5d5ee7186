//! Lines that need a tree.
ghost use Rattle.std.specs.Prelude.{◌≡◌, ℕ, ◌≤◌, ◌<◌, ◌&&◌, false, if◌then◌else◌, List, length, Some, None, IfOk, OnOk};
ghost use Rattle.std.specs.Option.{option_copied};
ghost use Rattle.fs_rules.specs.declared.plain_tree.PlainTree.{PlainTree as APlainTree};
ghost use Rattle.nfs_service.specs.Reply.{heard};
ghost use Rattle.transcript_rules.specs.declared.arrival.Arrival.{Arrival as AnArrival};
ghost use Rattle.transcript_judges.specs.Tests.{holds_of, cuts_well, mounts_well, points_well, replies_well};
ghost use Rattle.transcript_checker.specs.Plain.{has_place};
ghost use Rattle.transcript_checker.specs.Answers.{Changed, HasBytes, ReachesBeside, is_answer, is_file, reply_of};
ghost use Rattle.transcript_trees.specs.Trees.{AreKept};
ghost use Rattle.line_text.specs.declared.line.Line.TheVariants as a_line;
ghost use Rattle.transcript_rules.specs.Opening.{Opening as AnOpening, Schedule};
ghost use Rattle.transcript_rules.specs.Book.{Book as ABook, numbered};
ghost use Rattle.transcript_trees.specs.Kept.{AreReplies, is_reply};
ghost use Rattle.transcript_checker.specs.Standing.{Stands, Judges, HasRoom, HasTrees};

use crate::checker::Checker;
use crate::plain::has_place;
use fs_rules::Geometry;
use line_text::Line;
use nfs_service::Request;
use sfs_base::{Bytes, NoMemory};
use std::alloc::Global;
use transcript_facts::{Facts, Owed};
use transcript_judges::{cuts_well, is_under, mounts_well, points_well, replies_well};
use transcript_rules::Arrival;
use transcript_telling::note;
use transcript_trees::{Outcome, Replies, Trees};

impl Checker {
    /// Judges `point`: the change is carried out on the last tree.
    pub(crate) fn point(
        &mut self,
        alloc: Global,
        line: &Line,
        point: u64,
        number: u32,
        made: Option<(u32, u32)>,
    ) -> Result<bool, NoMemory>
        requires room { HasRoom self.old }
        requires line { line.now ≡ a_line.Point point number made }
        ensures { (o : AnOpening) (schedule : Schedule) (n : ℕ) (book : ABook) → Stands o schedule n book self.old → book.closed ≡ false
            → Judges o schedule n book (a_line.Point point number made) self.new result }
    {
        if !may_point(&self.facts, line, point, number) {
            return Ok(false);
        }
        let Some(reply) = change(alloc, &self.facts, &mut self.trees, number, made)? else {
            return Ok(false);
        };
        self.replies.make(u64::from(number), reply);
        note(&mut self.facts, line)?;
        Ok(true)
    }

    /// Judges `reply`: that to a change was made with it, and that to an arrival without a change is made in the tree that
    /// it names.
    pub(crate) fn reply(
        &mut self,
        alloc: Global,
        line: &Line,
        number: u32,
        at: u64,
        bytes: &Bytes,
    ) -> Result<bool, NoMemory>
        requires room { HasRoom self.old }
        requires line { line.now ≡ a_line.Reply number at bytes.now }
        ensures { (o : AnOpening) (schedule : Schedule) (n : ℕ) (book : ABook) → Stands o schedule n book self.old → book.closed ≡ false
            → Judges o schedule n book (a_line.Reply number at bytes.now) self.new result }
    {
        if !may_reply(alloc, self.geometry, &self.facts, line, number, at)? {
            return Ok(false);
        }
        if !has_bytes(
            alloc,
            &self.facts,
            &mut self.trees,
            &self.replies,
            number,
            at,
            bytes,
        )? {
            return Ok(false);
        }
        note(&mut self.facts, line)?;
        Ok(true)
    }

    /// Judges `cut`: the last tree is kept for the backup.
    pub(crate) fn cut(&mut self, line: &Line, number: u32, at: u64) -> Result<bool, NoMemory>
        requires room { HasRoom self.old }
        requires line { line.now ≡ a_line.Cut number at }
        ensures { (o : AnOpening) (schedule : Schedule) (n : ℕ) (book : ABook) → Stands o schedule n book self.old → book.closed ≡ false
            → Judges o schedule n book (a_line.Cut number at) self.new result }
    {
        if !may_cut(&self.facts, line, number, at) {
            return Ok(false);
        }
        let tree = self.trees.copy_last()?;
        self.cuts.keep(u64::from(number), tree);
        note(&mut self.facts, line)?;
        Ok(true)
    }

    /// Judges `mounted`: the lines of the listing of the backup's cut are owed.
    pub(crate) fn mount(
        &mut self,
        alloc: Global,
        line: &Line,
        number: u32,
        lines: u64,
    ) -> Result<bool, NoMemory>
        requires room { HasRoom self.old }
        requires line { line.now ≡ a_line.Mounted number lines }
        ensures { (o : AnOpening) (schedule : Schedule) (n : ℕ) (book : ABook) → Stands o schedule n book self.old → book.closed ≡ false
            → Judges o schedule n book (a_line.Mounted number lines) self.new result }
    {
        if !may_mount(&self.facts, line, number) {
            return Ok(false);
        }
        let listing = self.cuts.listing(alloc, u64::from(number))?;
        if listing.len() as u64 != lines {
            return Ok(false);
        }
        note(&mut self.facts, line)?;
        self.facts.owed = Owed::of(listing);
        Ok(true)
    }

    /// Judges a line of a listing: it is the first that is owed.
    pub(crate) fn list(&mut self, line: &Line, text: &Bytes) -> Result<bool, NoMemory>
        requires room { HasRoom self.old }
        requires line { line.now ≡ a_line.Listed text.now }
        ensures { (o : AnOpening) (schedule : Schedule) (n : ℕ) (book : ABook) → Stands o schedule n book self.old → book.closed ≡ false
            → Judges o schedule n book (a_line.Listed text.now) self.new result }
    {
        if !is_under(&self.facts, line) {
            return Ok(false);
        }
        note(&mut self.facts, line)?;
        let first = self.facts.owed.take();
        Ok(is_reply(first, text))
    }
}

// Whether a change may stand, but for what its call makes of the tree.
fn may_point(facts: &Facts, line: &Line, point: u64, number: u32) -> bool
    ensures { result ≡ (has_place facts.now line.now && holds_of (points_well facts.now point) (numbered facts.now.arrivals number)) }
{
    has_place(facts, line) && points(facts, point, facts.arrivals.get(u64::from(number)))
}

fn points(facts: &Facts, point: u64, arrival: Option<&Arrival>) -> bool
    ensures { result ≡ holds_of (points_well facts.now point) (option_copied arrival.entry) }
{
    match arrival {
        Some(arrival) => points_well(facts, point, arrival),
        None => false,
    }
}

// Carries out the change of an arrival that made this file, and gives its reply; `None` where its call makes no such
// change.
fn change(
    alloc: Global,
    facts: &Facts,
    trees: &mut Trees,
    number: u32,
    made: Option<(u32, u32)>,
) -> Result<Option<Bytes>, NoMemory>
    requires { HasTrees trees.old }
    ensures change { (ts : List APlainTree) (a : AnArrival) → AreKept ts trees.old → numbered facts.now.arrivals number ≡ Some a
        → IfOk result (Changed ts a number made trees.new) }
    ensures reach { OnOk result (ReachesBeside facts.now.arrivals number trees.old.oldest trees.new.oldest) }
{
    let Some(arrival) = facts.arrivals.get(u64::from(number)) else {
        return Ok(None);
    };
    let request = Request::read(alloc, arrival.bytes.as_slice())?;
    let keep = facts
        .arrivals
        .least_points_beside(u64::from(number), trees.end());
    let outcome = trees.step(alloc, keep, request, number, arrival.moment)?;
    Ok(reply_of(outcome, made))
}

// The reply of an outcome that made a change with this file.
fn reply_of(outcome: Outcome, made: Option<(u32, u32)>) -> Option<Bytes>
    ensures { result ≡ reply_of outcome made }
{
    match outcome.change {
        Some(change) => {
            if is_file(change.made, made) {
                outcome.reply
            } else {
                None
            }
        }
        None => None,
    }
}

// Whether one file that was made is another.
fn is_file(made: Option<(u32, u32)>, other: Option<(u32, u32)>) -> bool
    ensures { result ≡ is_file made other }
{
    match made {
        Some((number, generation)) => match other {
            Some((other_number, other_generation)) => {
                number == other_number && generation == other_generation
            }
            None => false,
        },
        None => match other {
            Some(_) => false,
            None => true,
        },
    }
}

// Whether a reply may stand, but for its bytes.
fn may_reply(
    alloc: Global,
    geometry: Geometry,
    facts: &Facts,
    line: &Line,
    number: u32,
    at: u64,
) -> Result<bool, NoMemory>
    ensures { IfOk result (λ may. may ≡ (if has_place facts.now line.now then holds_of (λ (a : AnArrival). replies_well geometry facts.now number at a (heard a.bytes)) (numbered facts.now.arrivals number) else false)) }
{
    if !has_place(facts, line) {
        return Ok(false);
    }
    replies(
        alloc,
        geometry,
        facts,
        number,
        at,
        facts.arrivals.get(u64::from(number)),
    )
}

fn replies(
    alloc: Global,
    geometry: Geometry,
    facts: &Facts,
    number: u32,
    at: u64,
    arrival: Option<&Arrival>,
) -> Result<bool, NoMemory>
    ensures { IfOk result (λ may. may ≡ holds_of (λ (a : AnArrival). replies_well geometry facts.now number at a (heard a.bytes)) (option_copied arrival.entry)) }
{
    match arrival {
        Some(arrival) => {
            let request = Request::read(alloc, arrival.bytes.as_slice())?;
            Ok(replies_well(geometry, facts, u64::from(number), at, arrival, &request))
        }
        None => Ok(false),
    }
}

// Whether these are the bytes of the reply of an arrival that names this prefix.
fn has_bytes(
    alloc: Global,
    facts: &Facts,
    trees: &mut Trees,
    replies: &Replies,
    number: u32,
    at: u64,
    bytes: &Bytes,
) -> Result<bool, NoMemory>
    ensures has { (ts : List APlainTree) (a : AnArrival) → AreKept ts trees.old → AreReplies ts facts.now.arrivals replies.now
        → numbered facts.now.arrivals number ≡ Some a → (a.point ≡ None → (trees.old.oldest ≤ at) × (at < length ts))
        → IfOk result (HasBytes ts a number at bytes.now trees.new) }
    ensures oldest { OnOk result (trees.new.oldest ≡ trees.old.oldest) }
{
    let Some(arrival) = facts.arrivals.get(u64::from(number)) else {
        return Ok(false);
    };
    if arrival.point.is_some() {
        return Ok(replies.is(u64::from(number), bytes));
    }
    let request = Request::read(alloc, arrival.bytes.as_slice())?;
    let outcome = trees.answer(alloc, at, request, number, arrival.moment)?;
    Ok(is_answer(outcome, bytes))
}

// Whether an outcome changes nothing, and its reply has these bytes.
fn is_answer(outcome: Option<Outcome>, bytes: &Bytes) -> bool
    ensures { result ≡ is_answer bytes.now outcome }
{
    match outcome {
        Some(outcome) => outcome.change.is_none() && is_reply(outcome.reply, bytes),
        None => false,
    }
}

// Whether a cut may stand.
fn may_cut(facts: &Facts, line: &Line, number: u32, at: u64) -> bool
    ensures { result ≡ (has_place facts.now line.now && cuts_well facts.now number at) }
{
    has_place(facts, line) && cuts_well(facts, u64::from(number), at)
}

// Whether it may be said what an archive was mounted as.
fn may_mount(facts: &Facts, line: &Line, number: u32) -> bool
    ensures { result ≡ (has_place facts.now line.now && mounts_well facts.now number) }
{
    has_place(facts, line) && mounts_well(facts, number)
}

// Whether there are bytes, and they are these.
fn is_reply(reply: Option<Bytes>, bytes: &Bytes) -> bool
    ensures { result ≡ is_reply bytes.now reply }
{
    match reply {
        Some(reply) => reply.as_slice() == bytes.as_slice(),
        None => false,
    }
}
