//! The messages that were posted.
ghost use Rattle.std.specs.Prelude.{◌≡◌, ℕ, ◌+◌, ◌<◌, ◌≤◌, List, [], ◌∷◌, ◌++◌, not, false, length, slice_get, Some, true, OnOk, OnErr, IfSome, IfNone, count_by};
ghost use Rattle.std.specs.List.{All, list_any};
ghost use Rattle.std.specs.List.Sorted.{IsNonDecreasingBy};
ghost use Rattle.std.specs.Option.{option_copied};
ghost use Rattle.transcript_rules.specs.declared.post.Post.{Post as APost};
ghost use Rattle.transcript_book.specs.Posts.{ArePassed};
ghost use Rattle.transcript_rules.specs.Book.{numbered, with_numbered, is_actor};
ghost use Rattle.transcript_rules.specs.Next.{least_from, handed_among, left_out};
ghost use Rattle.transcript_rules.specs.Cause.{is_refused_since, is_heard_since, is_hold, is_forcing};
ghost use Rattle.transcript_rules.specs.Carried.{last_attempt, have_votes};

use crate::votes::{have_votes, is_forced_since, is_held_since, refusals_since};
use mini_tx::Actor;
use sfs_base::NoMemory;
use std::alloc::Global;
use std::marker::Model;
use transcript_checks::is_actor;
use transcript_rules::Post;

/// The messages that were posted, numbered from 1. A contract sees the list of them, oldest first.
#[derive(Debug, Drop)]
pub struct Mail {
    posts: Vec<Post>,
    // None of the first messages waits, so that each is passed over once.
    first: usize,
}

impl Model for Mail {
    ghost use Rattle.std.specs.Prelude.{List};
    ghost use Rattle.std.specs.List.Sorted.{IsNonDecreasingBy};
    ghost use Rattle.transcript_rules.specs.declared.post.Post.{Post as APost};
    ghost use Rattle.transcript_rules.specs.contracts.post.Post.{the_row};
    ghost use Rattle.transcript_book.specs.Posts.{ArePassed};

    ghost Value = { List APost };

    ghost view = { λ m. m.posts.items };

    ghost invariant = { λ m. ArePassed m.posts.items m.first
        × IsNonDecreasingBy (λ (p : APost). p.under) m.posts.items };
}

impl Mail {
    /// No message. It takes no memory.
    pub fn new(alloc: Global) -> Mail
        ensures { result ≡ [] }
    {
        Mail {
            posts: Vec::new(alloc),
            first: 0,
        }
    }

    /// How many were posted.
    pub fn len(&self) -> usize
        ensures { result ≡ length self.now }
    {
        self.posts.len()
    }

    /// Message `k`; `None` exactly where none has this number.
    pub fn get(&self, k: u64) -> Option<&Post>
        ensures { option_copied result ≡ numbered self.now k }
    {
        if k == 0 || k > self.posts.len() as u64 {
            return None;
        }
        Some(&self.posts[(k - 1) as usize])
    }

    /// Posts one more, in an event that is not before that of any other. On [`NoMemory`] the messages are as before.
    pub fn post(&mut self, post: Post) -> Result<(), NoMemory>
        requires { All (λ (p : APost). p.under ≤ post.under) self.old }
        ensures ok { OnOk result (self.new ≡ self.old ++ post ∷ []) }
        ensures err { OnErr result (self.new ≡ self.old) }
    {
        self.posts.push(post)?;
        Ok(())
    }

    /// Message `k` is delivered in the event `under`: it waits no more, and is handled where its receiver is not among
    /// `down`. Nothing changes where no message has this number.
    pub fn deliver(&mut self, k: u64, under: u64, down: &[Actor])
        ensures { self.new ≡ with_numbered self.old k (handed_among down.now under) }
    {
        if let Some(index) = place_of(&self.posts, k) {
            hand_on(&mut self.posts, index, under, down);
        }
    }

    /// Message `k` waits no more, so that drains leave it out. Nothing changes where no message has this number.
    pub fn leave_out(&mut self, k: u64)
        ensures { self.new ≡ with_numbered self.old k left_out }
    {
        if let Some(index) = place_of(&self.posts, k) {
            leave_out(&mut self.posts, index);
        }
    }

    /// How many votes to a node that are not granted were handled after the event `since`. It looks at every message.
    pub fn refusals_since(&self, node: u32, since: u64) -> usize
        ensures { result ≡ count_by (is_refused_since node since) self.now }
    {
        refusals_since(&self.posts, node, since)
    }

    /// Whether a `hold` was handled at a memory node after the event `since`. It looks at every message.
    pub fn is_held_since(&self, memory: u32, since: u64) -> bool
        ensures { result ≡ is_heard_since self.now is_hold memory since }
    {
        is_held_since(&self.posts, memory, since)
    }

    /// Whether an `ask`, or a decision of the manager to abort, was handled at a memory node after the event `since`. It
    /// looks at every message.
    pub fn is_forced_since(&self, memory: u32, since: u64) -> bool
        ensures { result ≡ is_heard_since self.now is_forcing memory since }
    {
        is_forced_since(&self.posts, memory, since)
    }

    /// Whether all that took part in a node's last attempt before the event `now` have granted it since. It looks at the
    /// messages that were posted since that attempt.
    pub fn have_votes(&self, node: u32, now: u64) -> bool
        ensures { result ≡ have_votes self.now node (last_attempt node now self.now) }
    {
        have_votes(&self.posts, node, now)
    }

    /// The least message that waits; `None` exactly where none does. Messages that wait no more are passed over once.
    pub fn least(&mut self) -> Option<u64>
        ensures least { result ≡ least_from 1 self.old }
        ensures same { self.new ≡ self.old }
    {
        self.first = first_waiting(&self.posts, self.first);
        number_at(&self.posts, self.first)
    }
}

// The number of a message that is the first that waits, if there is one.
fn number_at(posts: &[Post], first: usize) -> Option<u64>
    requires passed { ArePassed posts.now first }
    requires waits { (p : APost) → slice_get posts.now first ≡ Some p → p.waits ≡ true }
    ensures { result ≡ least_from 1 posts.now }
{
    if first < posts.len() {
        Some(first as u64 + 1)
    } else {
        None
    }
}

// The place of message `k`.
fn place_of(posts: &[Post], k: u64) -> Option<usize>
    ensures some { IfSome result (λ index. (index < length posts.now) × (k ≡ index + 1)) }
    ensures none { IfNone result (0 < k → k ≤ length posts.now → ⊥) }
{
    if k > 0 && k <= posts.len() as u64 {
        Some((k - 1) as usize)
    } else {
        None
    }
}

// Puts a delivered message in the place of what it was.
fn hand_on(posts: &mut Vec<Post>, index: usize, under: u64, down: &[Actor])
    requires { index < length posts.old.items }
    ensures { posts.new.items ≡ with_numbered posts.old.items (index + 1) (handed_among down.now under) }
{
    let post = posts[index];
    posts[index] = handed(post, under, down);
}

fn handed(post: Post, under: u64, down: &[Actor]) -> Post
    ensures { result ≡ handed_among down.now under post }
{
    let heard = if is_among(post.to, down) {
        post.heard
    } else {
        under
    };
    heard_in(post, heard)
}

// The message as one that waits no more and was handled last in this event.
fn heard_in(post: Post, heard: u64) -> Post
    ensures { result ≡ record post { waits = false; heard = heard } }
{
    Post {
        from: post.from,
        to: post.to,
        words: post.words,
        under: post.under,
        again: post.again,
        waits: false,
        heard,
    }
}

// Whether an actor is one of these.
pub(crate) fn is_among(who: Actor, down: &[Actor]) -> bool
    ensures { result ≡ list_any (is_actor who) down.now }
{
    down.iter().any(|other| is_actor(who, *other))
}

fn leave_out(posts: &mut Vec<Post>, index: usize)
    requires { index < length posts.old.items }
    ensures { posts.new.items ≡ with_numbered posts.old.items (index + 1) left_out }
{
    let post = posts[index];
    posts[index] = heard_in(post, post.heard);
}

// The first message from one on before which none waits.
fn first_waiting(posts: &[Post], from: usize) -> usize
    requires { ArePassed posts.now from }
    ensures passed { ArePassed posts.now result }
    ensures waits { (p : APost) → slice_get posts.now result ≡ Some p → p.waits ≡ true }
{
    for index in from..posts.len() {
        if posts[index].waits {
            return index;
        }
    }
    posts.len()
}
