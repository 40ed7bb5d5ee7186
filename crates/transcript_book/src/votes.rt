//! The votes among the messages that were posted.
ghost use Rattle.std.specs.Prelude.{◌≡◌, ℕ, ◌≤◌, nat_lt, true, Bool, if◌then◌else◌, length, drop, count_by};
ghost use Rattle.std.specs.List.{AllWithin, list_any, list_all};
ghost use Rattle.std.specs.List.Sorted.{IsNonDecreasingBy};
ghost use Rattle.transcript_rules.specs.declared.post.Post.{Post as APost};
ghost use Rattle.transcript_rules.specs.Cause.{is_refused_since, is_hold, is_forcing, is_heard_since, is_refusal, is_hold_word, is_forcing_word};
ghost use Rattle.transcript_rules.specs.Carried.{is_attempt, last_attempt, is_vote, has_vote, is_part, have_votes, is_prepare, is_granted};

use mini_tx::Actor;
use transcript_checks::{
    is_actor, is_forcing_word, is_granted, is_hold_word, is_prepare, is_refusal,
};
use transcript_rules::Post;

/// How many of these messages are votes to a node that are not granted and were delivered after that event.
pub(crate) fn refusals_since(posts: &[Post], node: u32, since: u64) -> usize
    ensures { result ≡ count_by (is_refused_since node since) posts.now }
{
    posts
        .iter()
        .filter(|post| is_refused_since(post, node, since))
        .count()
}

fn is_refused_since(post: &Post, node: u32, since: u64) -> bool
    ensures { result ≡ is_refused_since node since post.now }
{
    is_actor(post.to, Actor::Node(node)) && is_refusal(post.words) && since < post.heard
}

/// Whether a `hold` was delivered at a memory node after that event.
pub(crate) fn is_held_since(posts: &[Post], memory: u32, since: u64) -> bool
    ensures { result ≡ is_heard_since posts.now is_hold memory since }
{
    posts.iter().any(|post| {
        is_actor(post.to, Actor::Memory(memory)) && is_hold_word(post.words) && since < post.heard
    })
}

/// Whether an `ask`, or a decision of the manager to abort, was.
pub(crate) fn is_forced_since(posts: &[Post], memory: u32, since: u64) -> bool
    ensures { result ≡ is_heard_since posts.now is_forcing memory since }
{
    posts.iter().any(|post| {
        is_actor(post.to, Actor::Memory(memory)) && is_forcing(post) && since < post.heard
    })
}

fn is_forcing(post: &Post) -> bool
    ensures { result ≡ is_forcing post.now }
{
    is_forcing_word(post.words) && is_actor(post.from, Actor::Manager)
}

/// Whether the last attempt of a node before an event has all its votes.
pub(crate) fn have_votes(posts: &[Post], node: u32, now: u64) -> bool
    requires { IsNonDecreasingBy (λ (p : APost). p.under) posts.now }
    ensures { result ≡ have_votes posts.now node (last_attempt node now posts.now) }
{
    let attempt = last_attempt(posts, node, now);
    let first = posted_before(posts, attempt);
    have_votes_of(&posts[first..], node, attempt)
}

// How many messages were posted before an event.
fn posted_before(posts: &[Post], event: u64) -> usize
    requires { IsNonDecreasingBy (λ (p : APost). p.under) posts.now }
    ensures bound { result ≤ length posts.now }
    ensures before { AllWithin (λ (p : APost). nat_lt p.under event ≡ true) posts.now 0 result }
{
    posts.partition_point(|post| post.under < event)
}

// Whether all of these that are a node's prepares of an event have a vote among them.
fn have_votes_of(posts: &[Post], node: u32, event: u64) -> bool
    ensures { result ≡ have_votes posts.now node event }
{
    posts
        .iter()
        .all(|post| has_its_vote(posts, post, node, event))
}

fn has_its_vote(posts: &[Post], post: &Post, node: u32, event: u64) -> bool
    ensures { result ≡ (if is_part node event post.now then has_vote posts.now node post.now.to event else true) }
{
    if is_part(post, node, event) {
        has_vote(posts, node, post.to, event)
    } else {
        true
    }
}

fn is_part(post: &Post, node: u32, event: u64) -> bool
    ensures { result ≡ is_part node event post.now }
{
    is_actor(post.from, Actor::Node(node)) && is_prepare(post.words) && post.under == event
}

fn has_vote(posts: &[Post], node: u32, memory: Actor, event: u64) -> bool
    ensures { result ≡ has_vote posts.now node memory event }
{
    posts.iter().any(|vote| is_vote(vote, node, memory, event))
}

fn is_vote(vote: &Post, node: u32, memory: Actor, event: u64) -> bool
    ensures { result ≡ is_vote node memory event vote.now }
{
    is_actor(vote.from, memory)
        && is_actor(vote.to, Actor::Node(node))
        && is_granted(vote.words)
        && event < vote.under
        && event < vote.heard
}

// The last event before this one in which a node posted a prepare that was not posted again; 0 where there is none.
fn last_attempt(posts: &[Post], node: u32, now: u64) -> u64
    ensures { result ≡ last_attempt node now posts.now }
{
    let mut end = posts.len();
    while end > 0 {
        end -= 1;
        if is_attempt(&posts[end], node, now) {
            return posts[end].under;
        }
    }
    0
}

fn is_attempt(post: &Post, node: u32, now: u64) -> bool
    ensures { result ≡ is_attempt node now post.now }
{
    is_actor(post.from, Actor::Node(node))
        && is_prepare(post.words)
        && post.under < now
        && !post.again
}
