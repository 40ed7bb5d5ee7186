ghost use Rattle.std.specs.Prelude.{◌≡◌, ◌==◌, ◌+◌, ◌<◌, ◌^◌, if◌then◌else◌, length, Some, IfOk};
ghost use Rattle.transcript_rules.specs.Opening.{checked, cluster_in, cluster_of};
ghost use Rattle.transcript_next.specs.Nexts.{scheduled};
ghost use Rattle.transcript_check.specs.declared.verdict.Verdict.TheVariants as verdict;
ghost use Rattle.transcript_check.specs.Verdicts.{IsVerdict, IsWhole, at_once, ending, is_first_refused, refused_at_once};

use crate::verdict::Verdict;
use event_text::Event;
use fs_rules::Geometry;
use line_text::Line;
use sfs_base::NoMemory;
use std::alloc::Global;
use transcript_checker::Checker;

/// Judges a transcript for the schedule of these events. It takes nothing of a world: each line costs its own work, and at
/// most one step of the plain tree. [`NoMemory`]: memory ran out. The definitions are those of docs/PROMISES.md, "What a
/// legal transcript is".
pub fn check(alloc: Global, events: &[Event], lines: &[Line]) -> Result<Verdict, NoMemory>
    ensures verdict { IfOk result (IsVerdict (scheduled events.now) lines.now) }
    ensures holds { IfOk result (λ v. IsWhole (scheduled events.now) lines.now → v ≡ verdict.Holds) }
{
    match cluster_of(events) {
        Some(geometry) => check_from(alloc, geometry, events, lines),
        None => Ok(refused_at_once(lines)),
    }
}

// Judges a transcript for a schedule whose first event names this cluster.
fn check_from(
    alloc: Global,
    geometry: Geometry,
    events: &[Event],
    lines: &[Line],
) -> Result<Verdict, NoMemory>
    requires { cluster_of (scheduled events.now) ≡ Some geometry }
    ensures verdict { IfOk result (IsVerdict (scheduled events.now) lines.now) }
    ensures holds { IfOk result (λ v. IsWhole (scheduled events.now) lines.now → v ≡ verdict.Holds) }
{
    let mut checker = Checker::open(alloc, geometry)?;
    let count = count_of(lines);
    for index in 0..count {
        if !checker.judge(alloc, events, &lines[index])? {
            return Ok(Verdict::Fails {
                line: index as u64 + 1,
            });
        }
    }
    Ok(ending(checker.facts.closed, lines))
}

// How many lines there are: fewer than a number of 64 bits can count.
fn count_of(lines: &[Line]) -> usize
    ensures count { result ≡ length lines.now }
    ensures small { length lines.now + 1 < 2 ^ 64 }
{
    lines.len()
}

// What is found where a schedule names no cluster within the limits: its first line is refused, and nothing else stands.
fn refused_at_once(lines: &[Line]) -> Verdict
    ensures { result ≡ refused_at_once lines.now }
{
    match lines.first() {
        Some(line) => at_once(is_first_refused(line), lines.len()),
        None => Verdict::Fails { line: 1 },
    }
}

// Of lines of which the first refuses the first line of the schedule, or does not.
fn at_once(refuses: bool, count: usize) -> Verdict
    ensures { result ≡ at_once refuses count }
{
    if refuses {
        alone(count)
    } else {
        Verdict::Fails { line: 1 }
    }
}

fn alone(count: usize) -> Verdict
    ensures { result ≡ (if count == 1 then verdict.Holds else verdict.Fails 2) }
{
    if count == 1 {
        Verdict::Holds
    } else {
        Verdict::Fails { line: 2 }
    }
}

// Whether a line refuses the first line of the schedule.
fn is_first_refused(line: &Line) -> bool
    ensures { result ≡ is_first_refused line.now }
{
    match line {
        Line::Refused { line: number } => *number == 1,
        _ => false,
    }
}

// What is found of lines that may stand.
fn ending(closed: bool, lines: &[Line]) -> Verdict
    ensures { result ≡ ending closed (length lines.now) }
{
    if closed {
        Verdict::Holds
    } else {
        Verdict::Fails {
            line: lines.len() as u64 + 1,
        }
    }
}

// The cluster of a schedule: its first event names it, within the limits.
fn cluster_of(events: &[Event]) -> Option<Geometry>
    ensures { result ≡ cluster_of (scheduled events.now) }
{
    match events.first() {
        Some(event) => cluster_in(event),
        None => None,
    }
}

// The cluster that an event names, within the limits.
fn cluster_in(event: &Event) -> Option<Geometry>
    ensures { result ≡ cluster_in (Some event.now) }
{
    match event {
        Event::Cluster {
            nodes,
            memories,
            blocks,
            inodes,
        } => checked(Geometry {
            nodes: *nodes,
            memories: *memories,
            blocks: *blocks,
            inodes: *inodes,
        }),
        _ => None,
    }
}

fn checked(geometry: Geometry) -> Option<Geometry>
    ensures { result ≡ checked geometry }
{
    if geometry.is_within_limits() {
        Some(geometry)
    } else {
        None
    }
}
