ghost use Rattle.std.specs.Prelude.{◌≡◌, ◌<◌, ◌^◌, ℕ, length, None, Some, IfOk};
ghost use Rattle.mini_tx.specs.declared.actor.Actor.TheVariants.{Node as node};
ghost use Rattle.mini_tx.specs.declared.geometry.Geometry4.{Geometry4};
ghost use Rattle.mini_tx.specs.declared.posted.Posted.{Posted as PostedOn};
ghost use Rattle.story_rules.specs.Story.{Story};
ghost use Rattle.story_rules.specs.Steps.{delivered, message_at};
ghost use Rattle.story_laws.specs.Acts.{Delivers};
ghost use Rattle.cluster_memories.specs.Memories.{slots_in};
ghost use Rattle.cluster_seats.specs.Seats.{nodes_in};
ghost use Rattle.cluster_steps.specs.Live.{IsBeside, how_of};
ghost use Rattle.cluster_calls.specs.Known.{Act, IsDelivered, StandFor, vote_at};

use cluster_memories::{Delivered, Memories};
use cluster_parts::Book;
use cluster_seats::Seats;
use cluster_steps::{Went, to_memory, to_node};
use disk_model::Disk;
use link_model::Link;
use mini_tx::{Actor, Message, Posted};
use sfs_base::NoMemory;

/// Gives a message that was posted to its receiver. [`NoMemory`]: there is no memory, or the receiver's disk is
/// starved.
pub(crate) fn give<D: Disk, L: Link>(
    memories: &mut Memories<D>,
    seats: &mut Seats,
    book: &mut Book,
    link: &mut L,
    posted: &Posted,
) -> Result<Went, NoMemory>
    requires life { (L.shown link.old).count < 2 ^ 62 }
    requires known { (g : Geometry4) × ((story : Story) × ((k : ℕ) × IsDelivered g story k posted.now (slots_in memories.old))) }
    ensures { IfOk result (λ went. (g : Geometry4) (story : Story) (k : ℕ) → message_at story k ≡ Some posted.now
        → StandFor g (slots_in memories.old) (nodes_in seats.old) (L.stands link.old) book.old story
        → Act D.tells D.history D.health g (slots_in memories.old) (slots_in memories.new) (nodes_in seats.new) (L.stands link.new) book.new
        story (Delivers k (how_of went.delivered))
        × (went.vote ≡ vote_at story (Some posted.now) (how_of went.delivered))) }
{
    match posted.to {
        Actor::Memory(m) => {
            if (m as usize) < memories.len() {
                to_memory(memories, book, link, m, posted.from, &posted.message)
            } else {
                Ok(Went::without_vote(Delivered::Handled))
            }
        }
        Actor::Node(n) => {
            if (n as usize) < seats.len() {
                hear(seats, book, link, n, posted.from, &posted.message)
            } else {
                Ok(Went::without_vote(Delivered::Handled))
            }
        }
        Actor::Manager => Ok(Went::without_vote(Delivered::Handled)),
    }
}

/// A node hears a message; no Granted vote leaves.
fn hear<L: Link>(
    seats: &mut Seats,
    book: &mut Book,
    link: &mut L,
    n: u32,
    from: Actor,
    message: &Message,
) -> Result<Went, NoMemory>
    requires there { n < length (nodes_in seats.old) }
    requires life { (L.shown link.old).count < 2 ^ 62 }
    ensures heard { IfOk result (λ went. (story : Story) (k : ℕ) (p : PostedOn)
        → message_at story k ≡ Some p → p ≡ record { from = from; to = node n; message = message.now }
        → IsBeside (nodes_in seats.old) (L.stands link.old) book.old story
        → IsBeside (nodes_in seats.new) (L.stands link.new) book.new (delivered story k (how_of went.delivered))
        × ((delivered story k (how_of went.delivered)).sites ≡ story.sites)) }
    ensures vote { IfOk result (λ went. went.vote ≡ None) }
{
    let delivered = to_node(seats, book, link, n, from, message)?;
    Ok(Went::without_vote(delivered))
}
