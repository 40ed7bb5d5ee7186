//! Whether the event that runs is over.
ghost use Rattle.std.specs.Prelude.{◌≡◌, IfOk};
ghost use Rattle.std.specs.List.{list_any};
ghost use Rattle.std.specs.Option.{option_copied};
ghost use Rattle.transcript_rules.specs.Book.{is_actor};
ghost use Rattle.transcript_rules.specs.Place.{is_told};
ghost use Rattle.transcript_next.specs.Overs.{has_all_by, has_answered, has_lost, ends_at_once_by, is_over_by};

use fs_rules::Geometry;
use mini_tx::Actor;
use nfs_service::Request;
use sfs_base::NoMemory;
use std::alloc::Global;
use transcript_checks::{is_actor, needs_files};
use transcript_facts::{Facts, Now};
use transcript_rules::{Arrival, Ended, Post};

/// How many arrivals wait at a node beside the one that runs.
const MOST_WAITING: usize = 32;

/// Whether the event that runs is over: no line of a listing is owed, and all that is due stands. [`NoMemory`]: there is
/// no memory to hear what came.
pub fn is_over(alloc: Global, geometry: Geometry, facts: &Facts) -> Result<bool, NoMemory>
    ensures { IfOk result (λ over. over ≡ is_over_by geometry facts.now) }
{
    if !facts.owed.is_empty() {
        return Ok(false);
    }
    has_all(alloc, geometry, facts)
}

// Whether all that is due under the event stands.
fn has_all(alloc: Global, geometry: Geometry, facts: &Facts) -> Result<bool, NoMemory>
    ensures { IfOk result (λ all. all ≡ has_all_by geometry facts.now) }
{
    match facts.event {
        Now::Arrive => {
            has_answered(
                alloc,
                geometry,
                facts,
                facts.arrivals.get(facts.arrivals.len() as u64),
            )
        }
        Now::Deliver { k } => Ok(has_lost(facts, facts.mail.get(k))),
        Now::GiveUp { .. } => Ok(facts.said.retry),
        Now::Show { .. } => Ok(facts.said.mounting),
        Now::Nothing | Now::Resend | Now::StartMemory { .. } | Now::Other => Ok(true),
    }
}

// Of a message to who is down: that it is lost stands.
fn has_lost(facts: &Facts, post: Option<&Post>) -> bool
    ensures { result ≡ has_lost facts.now (option_copied post.entry) }
{
    match post {
        Some(post) => {
            if facts.down.contains(post.to) && !is_among(post.to, &facts.said.downs) {
                facts.said.lost
            } else {
                true
            }
        }
        None => true,
    }
}

// Of the last arrival: its end stands, where something ends it at once.
fn has_answered(
    alloc: Global,
    geometry: Geometry,
    facts: &Facts,
    arrival: Option<&Arrival>,
) -> Result<bool, NoMemory>
    ensures { IfOk result (λ all. all ≡ has_answered geometry facts.now (option_copied arrival.entry)) }
{
    match arrival {
        Some(arrival) => {
            let request = Request::read(alloc, arrival.bytes.as_slice())?;
            Ok(!ends_at_once(geometry, facts, arrival.node, &request) || is_told(arrival.ended))
        }
        None => Ok(true),
    }
}

// Whether something ends an arrival at once.
fn ends_at_once(geometry: Geometry, facts: &Facts, node: u32, request: &Request) -> bool
    ensures { result ≡ ends_at_once_by geometry facts.now node request.now }
{
    if facts.down.contains(Actor::Node(node)) || !needs_files(geometry, request) {
        true
    } else {
        MOST_WAITING < facts.arrivals.open_before(node, facts.under)
    }
}

// Whether it is told how an arrival ended.
fn is_told(ended: Option<Ended>) -> bool
    ensures { result ≡ is_told ended }
{
    match ended {
        None => false,
        Some(Ended::Lost) => false,
        Some(Ended::GivenUp | Ended::Replied | Ended::Dropped | Ended::Retried) => true,
    }
}

// Whether an actor is one of these.
fn is_among(who: Actor, actors: &[Actor]) -> bool
    ensures { result ≡ list_any (is_actor who) actors.now }
{
    actors.iter().any(|other| is_actor(who, *other))
}
