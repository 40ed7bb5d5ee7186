//! How datagrams end.
ghost use Rattle.std.specs.Prelude.{◌≡◌, ◌==◌, ◌+◌, nat_le, count_by, ◌&&◌};
ghost use Rattle.transcript_rules.specs.Truth.{may_change, may_drop};
ghost use Rattle.transcript_rules.specs.Carried.{is_prepare};
ghost use Rattle.transcript_rules.specs.Book.{is_actor};
ghost use Rattle.transcript_judges.specs.Tests.{drops_well, handled, has_all_votes, has_drop_cause, has_retry_cause, holds_of, in_order, is_at_once, is_later, is_none, is_silent, names_well, points_well, replies_well, retries_well, votes_for, words_between};
ghost use Rattle.mini_tx.specs.declared.actor.Actor.TheVariants.{Node, Memory};
ghost use Rattle.transcript_rules.specs.Cause.{is_open_before, is_refused_since};
ghost use Rattle.transcript_rules.specs.declared.post.Post.{Post as APost};

use crate::events::{gives_up, handled, is_next, is_number, starts_one, words_between};
use crate::kinds::{is_forced, is_locked, is_mismatch, is_vote_held};
use fs_rules::Geometry;
use line_text::{DropWhy, RetryWhy, SentKind};
use mini_tx::Actor;
use nfs_service::Request;
use transcript_checks::{is_actor, is_granted, is_memory, is_prepare, needs_files};
use transcript_facts::Facts;
use transcript_rules::{Arrival, Ended, Post};

/// How often an arrival may fail.
const MOST_FAILURES: usize = 8;

/// How many arrivals wait at a node beside the one that runs.
const MOST_WAITING: usize = 32;

/// Whether `point P arrival A ..` may stand, but for what its call makes of the tree: it is the next change, A may still
/// make one, and it stands under a prepare of A's node or the start of a memory node.
pub fn points_well(facts: &Facts, point: u64, arrival: &Arrival) -> bool
    ensures { result ≡ points_well facts.now point arrival.now }
{
    is_next(facts.points, point)
        && arrival.point.is_none()
        && may_change(arrival.ended)
        && (is_prepared(arrival.node, handled(facts)) || starts_one(facts.event))
}

// Whether a change may still come of what ended so.
fn may_change(ended: Option<Ended>) -> bool
    ensures { result ≡ may_change ended }
{
    match ended {
        None => true,
        Some(Ended::GivenUp | Ended::Lost) => true,
        Some(Ended::Replied | Ended::Dropped | Ended::Retried) => false,
    }
}

// Whether a prepare of this node is delivered.
fn is_prepared(node: u32, handed: Option<Post>) -> bool
    ensures { result ≡ holds_of (λ (p : APost). is_actor p.from (Node node) && is_prepare p.words) handed }
{
    match handed {
        Some(post) => is_actor(post.from, Actor::Node(node)) && is_prepare(post.words),
        None => false,
    }
}

/// Whether `reply A at P ..` may stand, but for its bytes: A has not ended and ends in its turn, P is a prefix that it
/// may name, and it rests on what was delivered.
pub fn replies_well(
    geometry: Geometry,
    facts: &Facts,
    number: u64,
    at: u64,
    arrival: &Arrival,
    request: &Request,
) -> bool
    ensures { result ≡ replies_well geometry facts.now number at arrival.now request.now }
{
    is_open_in_order(facts, number, arrival)
        && names_well(facts.points, at, arrival.points, arrival.point)
        && is_at_once(geometry, facts, arrival, request)
        && is_later(geometry, facts, arrival, request)
        && has_all_votes(facts, arrival)
}

// Whether an arrival has not ended, and ends in its turn.
fn is_open_in_order(facts: &Facts, number: u64, arrival: &Arrival) -> bool
    ensures { result ≡ (is_none arrival.now.ended && in_order facts.now number arrival.now) }
{
    arrival.ended.is_none() && in_order(facts, number, arrival)
}

fn in_order(facts: &Facts, number: u64, arrival: &Arrival) -> bool
    ensures { result ≡ in_order facts.now number arrival.now }
{
    if arrival.under < facts.under {
        is_number(number, facts.arrivals.running_at(arrival.node))
    } else {
        true
    }
}

// Whether a reply may name a prefix, by how many changes there are, how many stood before its arrival, and the change that
// this made.
fn names_well(points: u64, at: u64, before: u64, point: Option<u64>) -> bool
    ensures { result ≡ names_well points at before point }
{
    match point {
        Some(point) => at == point,
        None => before <= at && at <= points,
    }
}

// Of a reply in its own event: the node is up, and no file system is needed.
fn is_at_once(geometry: Geometry, facts: &Facts, arrival: &Arrival, request: &Request) -> bool
    ensures { result ≡ is_at_once geometry facts.now arrival.now request.now }
{
    if arrival.under == facts.under {
        !facts.down.contains(Actor::Node(arrival.node)) && !needs_files(geometry, request)
    } else {
        true
    }
}

// Of a later one: it needs the file system, and a granted vote to its node is delivered that was posted since.
fn is_later(geometry: Geometry, facts: &Facts, arrival: &Arrival, request: &Request) -> bool
    ensures { result ≡ is_later geometry facts.now arrival.now request.now }
{
    if arrival.under < facts.under {
        needs_files(geometry, request) && is_voted_for(arrival, handled(facts))
    } else {
        true
    }
}

fn is_voted_for(arrival: &Arrival, handed: Option<Post>) -> bool
    ensures { result ≡ holds_of (votes_for arrival.now) handed }
{
    match handed {
        Some(post) => votes_for(arrival, post),
        None => false,
    }
}

fn votes_for(arrival: &Arrival, post: Post) -> bool
    ensures { result ≡ votes_for arrival.now post }
{
    is_memory(post.from)
        && is_actor(post.to, Actor::Node(arrival.node))
        && is_granted(post.words)
        && arrival.under < post.under
}

// Of one that made a change: all that took part in the last attempt have granted it.
fn has_all_votes(facts: &Facts, arrival: &Arrival) -> bool
    ensures { result ≡ has_all_votes facts.now arrival.now }
{
    if arrival.point.is_some() {
        facts.mail.have_votes(arrival.node, facts.under)
    } else {
        true
    }
}

/// Whether `retry A ..` may stand: A has not ended and ends in its turn, and the cause is there.
pub fn retries_well(facts: &Facts, number: u64, why: RetryWhy, arrival: &Arrival) -> bool
    ensures { result ≡ retries_well facts.now number why arrival.now }
{
    is_open_in_order(facts, number, arrival) && has_retry_cause(facts, number, arrival, why)
}

fn has_retry_cause(facts: &Facts, number: u64, arrival: &Arrival, why: RetryWhy) -> bool
    ensures { result ≡ has_retry_cause facts.now number arrival.now why }
{
    match why {
        RetryWhy::Mismatch { memory, .. } => {
            is_mismatch(vote_of(facts, arrival, memory)) && is_eighth(facts, arrival)
        }
        RetryWhy::Locked { memory, .. } => {
            is_locked(vote_of(facts, arrival, memory)) && is_eighth(facts, arrival)
        }
        RetryWhy::Held { memory, .. } => {
            is_vote_held(vote_of(facts, arrival, memory))
                && is_eighth(facts, arrival)
                && facts.mail.is_held_since(memory, 0)
        }
        RetryWhy::Forced { memory } => {
            is_forced(vote_of(facts, arrival, memory))
                && is_eighth(facts, arrival)
                && facts.mail.is_forced_since(memory, arrival.under)
        }
        RetryWhy::Unreached => {
            gives_up(facts.event, Actor::Node(arrival.node))
                && is_number(number, facts.arrivals.running_at(arrival.node))
        }
    }
}

// What the message that is delivered says, where it goes from this memory node to the node of an arrival.
fn vote_of(facts: &Facts, arrival: &Arrival, memory: u32) -> Option<SentKind>
    ensures { result ≡ words_between (Memory memory) (Node arrival.now.node) (handled facts.now) }
{
    words_between(
        Actor::Memory(memory),
        Actor::Node(arrival.node),
        handled(facts),
    )
}

// Whether as many votes that are not granted came to an arrival's node since it came as end it.
fn is_eighth(facts: &Facts, arrival: &Arrival) -> bool
    ensures { result ≡ nat_le 8 (count_by (is_refused_since arrival.now.node arrival.now.under) facts.now.mail) }
{
    MOST_FAILURES <= facts.mail.refusals_since(arrival.node, arrival.under)
}

/// Whether `dropped A ..` may stand: A may be dropped, in its own event, and the cause is there.
pub fn drops_well(
    geometry: Geometry,
    facts: &Facts,
    why: DropWhy,
    arrival: &Arrival,
    request: &Request,
) -> bool
    ensures { result ≡ drops_well geometry facts.now why arrival.now request.now }
{
    may_drop(arrival.ended)
        && arrival.under == facts.under
        && has_drop_cause(geometry, facts, arrival, request, why)
}

// Whether what ended so may still be dropped.
fn may_drop(ended: Option<Ended>) -> bool
    ensures { result ≡ may_drop ended }
{
    match ended {
        None => true,
        Some(Ended::Lost) => true,
        Some(Ended::GivenUp | Ended::Replied | Ended::Dropped | Ended::Retried) => false,
    }
}

fn has_drop_cause(
    geometry: Geometry,
    facts: &Facts,
    arrival: &Arrival,
    request: &Request,
    why: DropWhy,
) -> bool
    ensures { result ≡ has_drop_cause geometry facts.now arrival.now request.now why }
{
    let down = facts.down.contains(Actor::Node(arrival.node));
    match why {
        DropWhy::Down => down,
        DropWhy::Silent => !down && is_silent(request),
        DropWhy::Full => { !down && needs_files(geometry, request) && is_full(facts, arrival) }
        DropWhy::Damaged { .. } => false,
    }
}

// Whether as many wait at an arrival's node beside the one that runs as may.
fn is_full(facts: &Facts, arrival: &Arrival) -> bool
    ensures { result ≡ nat_le 33 (count_by (is_open_before arrival.now.node facts.now.under) facts.now.arrivals) }
{
    MOST_WAITING < facts.arrivals.open_before(arrival.node, facts.under)
}

fn is_silent(request: &Request) -> bool
    ensures { result ≡ is_silent request.now }
{
    matches!(request, Request::Silent)
}
