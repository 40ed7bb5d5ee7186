ghost use Rattle.std.specs.Prelude.{◌≡◌, ◌<◌, ◌^◌, ℕ, length, slice_get, Some, IfOk, OnOk};
ghost use Rattle.mini_tx.specs.declared.actor.Actor.TheVariants.{Node as node};
ghost use Rattle.mini_tx.specs.declared.posted.Posted.{Posted as PostedOn};
ghost use Rattle.tx_coord.specs.Rules.{heard as heard_by};
ghost use Rattle.tx_coord.specs.State.{Machine};
ghost use Rattle.story_rules.specs.Story.{Story};
ghost use Rattle.story_rules.specs.Steps.{delivered, message_at};
ghost use Rattle.cluster_seats.specs.Seats.{nodes_in};
ghost use Rattle.cluster_steps.specs.Live.{IsBeside, Makes, how_of, memory_in};

use crate::posting::post_all;
use crate::running::{refused, running};
use cluster_memories::Delivered;
use cluster_parts::Book;
use cluster_seats::Seats;
use link_model::Link;
use mini_tx::{Actor, Message};
use sfs_base::NoMemory;

/// A node hears a message of a memory node.
fn heard<L: Link>(
    seats: &mut Seats,
    book: &mut Book,
    link: &mut L,
    n: u32,
    from: u32,
    message: &Message,
) -> Result<(), NoMemory>
    requires there { n < length (nodes_in seats.old) }
    requires life { (L.shown link.old).count < 2 ^ 62 }
    ensures { OnOk result ((c : Machine) → slice_get (nodes_in seats.old) n ≡ Some c
        → Makes n c (heard_by c.state from message.now) (nodes_in seats.old) (nodes_in seats.new) (L.stands link.old) (L.stands link.new) book.old book.new) }
{
    let ran = running(seats.state(n));
    let posts = seats.hear(n, from, message)?;
    post_all(link, n, posts)?;
    if let Some(id) = refused(ran, seats.state(n)) {
        book.refuse(id);
    }
    Ok(())
}

/// The memory node that sent a message, where one did.
fn sender(from: Actor) -> Option<u32>
    ensures { result ≡ memory_in from }
{
    match from {
        Actor::Memory(memory) => Some(memory),
        Actor::Node(_) | Actor::Manager => None,
    }
}

/// Delivers a message to a node, which hears those of memory nodes. [`NoMemory`]: there is no memory.
pub fn to_node<L: Link>(
    seats: &mut Seats,
    book: &mut Book,
    link: &mut L,
    n: u32,
    from: Actor,
    message: &Message,
) -> Result<Delivered, NoMemory>
    requires there { n < length (nodes_in seats.old) }
    requires life { (L.shown link.old).count < 2 ^ 62 }
    ensures { IfOk result (λ went. (story : Story) (k : ℕ) (p : PostedOn)
        → message_at story k ≡ Some p → p ≡ record { from = from; to = node n; message = message.now }
        → IsBeside (nodes_in seats.old) (L.stands link.old) book.old story
        → IsBeside (nodes_in seats.new) (L.stands link.new) book.new (delivered story k (how_of went))
        × ((delivered story k (how_of went)).sites ≡ story.sites)) }
{
    if let Some(memory) = sender(from) {
        heard(seats, book, link, n, memory, message)?;
    }
    Ok(Delivered::Handled)
}
