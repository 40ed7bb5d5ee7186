//! Messages, and who goes down.
ghost use Rattle.std.specs.Prelude.{◌≡◌};
ghost use Rattle.std.specs.List.{list_any};
ghost use Rattle.std.specs.Option.{option_copied};
ghost use Rattle.transcript_rules.specs.declared.post.Post.{Post as APost};
ghost use Rattle.transcript_rules.specs.Book.{is_actor};
ghost use Rattle.transcript_judges.specs.Tests.{answers_at, falls_well, holds_of, is_down, loses_well, may_send, posts_well};

use crate::events::{delivered_in, handled, is_next, is_number};
use fs_rules::Geometry;
use line_text::{DownWhy, SentKind};
use mini_tx::Actor;
use transcript_book::Said;
use transcript_checks::{answers, is_actor, is_there};
use transcript_facts::{Downs, Facts};
use transcript_rules::Post;

/// Whether `sent K FROM TO WORDS` may stand: messages are numbered without gaps, go from one actor of the cluster to
/// another, and a memory node posts one alone, which answers what was delivered to it.
pub fn posts_well(
    geometry: Geometry,
    facts: &Facts,
    k: u64,
    from: Actor,
    to: Actor,
    words: SentKind,
) -> bool
    ensures { result ≡ posts_well geometry facts.now k from to words }
{
    is_next(facts.mail.len() as u64, k)
        && is_there(geometry, from)
        && is_there(geometry, to)
        && may_send(&facts.said, handled(facts), from, words)
}

// Whether an actor may post a message of this kind.
fn may_send(said: &Said, handed: Option<Post>, from: Actor, words: SentKind) -> bool
    ensures { result ≡ may_send said.now handed from words }
{
    match from {
        Actor::Node(_) | Actor::Manager => !said.sent_by_memory,
        Actor::Memory(memory) => answers_at(memory, words, handed) && !said.sent,
    }
}

// Whether a message answers the one that was delivered to a memory node.
fn answers_at(memory: u32, words: SentKind, handed: Option<Post>) -> bool
    ensures { result ≡ holds_of (answers_at memory words) handed }
{
    match handed {
        Some(post) => is_actor(post.to, Actor::Memory(memory)) && answers(post.words, words),
        None => false,
    }
}

/// Whether `lost K` may stand: the event delivers K, its receiver is down, and no line stands before.
pub fn loses_well(facts: &Facts, k: u64) -> bool
    ensures { result ≡ loses_well facts.now k }
{
    is_number(k, delivered_in(facts.event))
        && facts.said.none
        && goes_to_one(&facts.down, facts.mail.get(k))
}

// Whether the receiver of a message is down.
fn goes_to_one(down: &Downs, post: Option<&Post>) -> bool
    ensures { result ≡ holds_of (λ (p : APost). list_any (is_actor p.to) down.now) (option_copied post.entry) }
{
    match post {
        Some(post) => down.contains(post.to),
        None => false,
    }
}

/// Whether `down WHO WHY` may stand: nothing is damaged, and it is an actor of the cluster.
pub fn falls_well(geometry: Geometry, who: Actor, why: DownWhy) -> bool
    ensures { result ≡ falls_well geometry who why }
{
    match why {
        DownWhy::Damaged => false,
        _ => is_there(geometry, who),
    }
}
