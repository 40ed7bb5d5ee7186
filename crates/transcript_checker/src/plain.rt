//! Lines that need no tree.
ghost use Rattle.std.specs.Prelude.{◌≡◌, ℕ, false, true, IfOk, OnOk};
ghost use Rattle.std.specs.Option.{option_copied};
ghost use Rattle.transcript_rules.specs.Opening.{Opening as AnOpening, Schedule};
ghost use Rattle.transcript_rules.specs.Book.{Book as ABook, numbered};
ghost use Rattle.transcript_judges.specs.Tests.{holds_of, retries_well, drops_well};
ghost use Rattle.transcript_rules.specs.declared.arrival.Arrival.{Arrival as AnArrival};
ghost use Rattle.nfs_service.specs.Reply.{heard};
ghost use Rattle.transcript_checker.specs.Standing.{Stands, Judges, HasRoom, is_elsewhere};
ghost use Rattle.transcript_checker.specs.Plain.{has_place, may_stand_by, may_tell_by};

use crate::checker::Checker;
use fs_rules::Geometry;
use line_text::{DropWhy, Line, RetryWhy};
use nfs_service::Request;
use sfs_base::NoMemory;
use std::alloc::Global;
use transcript_facts::Facts;
use transcript_judges::{
    drops_well, ends_well, fails_well, falls_well, is_under, loses_well, mounts_well, posts_well,
    retries_well,
};
use transcript_rules::Arrival;
use transcript_telling::note;

impl Checker {
    /// Judges a line under an event that needs no tree.
    pub(crate) fn plain(&mut self, alloc: Global, line: &Line) -> Result<bool, NoMemory>
        requires room { HasRoom self.old }
        requires kind { is_elsewhere line.now ≡ false }
        ensures { (o : AnOpening) (schedule : Schedule) (n : ℕ) (book : ABook) → Stands o schedule n book self.old → book.closed ≡ false
            → Judges o schedule n book line.now self.new result }
    {
        if !may_stand(alloc, self.geometry, &self.facts, line)? {
            return Ok(false);
        }
        note(&mut self.facts, line)?;
        Ok(true)
    }
}

// Whether a line under an event that needs no tree may stand.
fn may_stand(
    alloc: Global,
    geometry: Geometry,
    facts: &Facts,
    line: &Line,
) -> Result<bool, NoMemory>
    ensures { IfOk result (λ may. may ≡ may_stand_by geometry facts.now line.now) }
{
    if !has_place(facts, line) {
        return Ok(false);
    }
    may_tell(alloc, geometry, facts, line)
}

/// Whether no line of a listing is owed, and a line may stand under the event.
pub(crate) fn has_place(facts: &Facts, line: &Line) -> bool
    ensures { result ≡ has_place facts.now line.now }
{
    facts.owed.is_empty() && is_under(facts, line)
}

// Whether a line may tell what it does.
fn may_tell(alloc: Global, geometry: Geometry, facts: &Facts, line: &Line) -> Result<bool, NoMemory>
    ensures { IfOk result (λ may. may ≡ may_tell_by geometry facts.now line.now) }
{
    match line {
        Line::Lost { k } => Ok(loses_well(facts, *k)),
        Line::Down { who, why } => Ok(falls_well(geometry, *who, *why)),
        Line::Sent { k, from, to, words } => {
            Ok(posts_well(geometry, facts, *k, *from, *to, *words))
        }
        Line::Retry { arrival, why } => Ok(retries(facts, u64::from(*arrival), *why)),
        Line::Dropped { arrival, why } => drops(
            alloc,
            geometry,
            facts,
            *why,
            facts.arrivals.get(u64::from(*arrival)),
        ),
        Line::BackupDone { number } => Ok(ends_well(facts, u64::from(*number))),
        Line::RetryBackup { number, why } => Ok(fails_well(facts, u64::from(*number), *why)),
        Line::MountFailed { number } => Ok(mounts_well(facts, *number)),
        _ => Ok(false),
    }
}

// Whether an arrival may end without a reply after it ran.
fn retries(facts: &Facts, number: u64, why: RetryWhy) -> bool
    ensures { result ≡ holds_of (retries_well facts.now number why) (numbered facts.now.arrivals number) }
{
    match facts.arrivals.get(number) {
        Some(arrival) => retries_well(facts, number, why, arrival),
        None => false,
    }
}

// Whether an arrival may be dropped.
fn drops(
    alloc: Global,
    geometry: Geometry,
    facts: &Facts,
    why: DropWhy,
    arrival: Option<&Arrival>,
) -> Result<bool, NoMemory>
    ensures { IfOk result (λ may. may ≡ holds_of (λ (a : AnArrival). drops_well geometry facts.now why a (heard a.bytes)) (option_copied arrival.entry)) }
{
    match arrival {
        Some(arrival) => {
            let request = Request::read(alloc, arrival.bytes.as_slice())?;
            Ok(drops_well(geometry, facts, why, arrival, &request))
        }
        None => Ok(false),
    }
}
