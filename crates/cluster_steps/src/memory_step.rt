ghost use Rattle.std.specs.Prelude.{◌≡◌, ◌<◌, ◌^◌, ℕ, List, length, slice_get, vec_len, vec_capacity, Some, IfOk};
ghost use Rattle.mini_tx.specs.declared.actor.Actor.TheVariants.{Memory as memory};
ghost use Rattle.mini_tx.specs.declared.geometry.Geometry4.{Geometry4};
ghost use Rattle.mini_tx.specs.declared.posted.Posted.{Posted as PostedOn};
ghost use Rattle.tx_coord.specs.State.{Machine};
ghost use Rattle.story_rules.specs.Story.{Story};
ghost use Rattle.story_rules.specs.Steps.{message_at};
ghost use Rattle.story_laws.specs.Acts.{IsTold};
ghost use Rattle.cluster_parts.specs.Slots.{setup_at};
ghost use Rattle.cluster_memories.specs.Memories.{MayBeSent, slots_in};
ghost use Rattle.cluster_steps.specs.Live.{Goes, IsLive, Settles};

use crate::posting::post_answer;
use crate::went::Went;
use cluster_memories::{Delivered, Handled, Memories};
use cluster_parts::{Book, grants};
use disk_model::Disk;
use link_model::Link;
use mini_tx::{Actor, Message, TxId};
use sfs_base::NoMemory;

/// Counts what a memory node granted, and posts its answer; or it went down. There is room for a place in the history.
fn settle<L: Link>(
    book: &mut Book,
    link: &mut L,
    m: u32,
    from: Actor,
    may: Option<TxId>,
    handled: Handled,
) -> Result<Went, NoMemory>
    requires room { vec_len book.old.committed < vec_capacity book.old.committed }
    requires life { (L.shown link.old).count < 2 ^ 62 }
    ensures { IfOk result (Settles (L.stands link.old) (L.stands link.new) book.old book.new m from may handled) }
{
    match handled {
        Handled::Answered(answer) => {
            book.count(grants(may, &answer), m);
            let vote = post_answer(link, m, from, answer)?;
            Ok(Went {
                delivered: Delivered::Handled,
                vote,
            })
        }
        Handled::Fell(cause) => Ok(Went::without_vote(Delivered::WentDown(cause))),
    }
}

/// Delivers a message to a memory node, which it may be sent. [`NoMemory`]: there is no memory, or its disk is
/// starved.
pub fn to_memory<D: Disk, L: Link>(
    memories: &mut Memories<D>,
    book: &mut Book,
    link: &mut L,
    m: u32,
    from: Actor,
    message: &Message,
) -> Result<Went, NoMemory>
    requires there { m < length (slots_in memories.old) }
    requires fit { (slot : _) → slice_get (slots_in memories.old) m ≡ Some slot → MayBeSent (setup_at slot) from message.now }
    requires life { (L.shown link.old).count < 2 ^ 62 }
    ensures { IfOk result (λ went. (size : ℕ) (g : Geometry4) (nodes : List Machine) (story : Story) (k : ℕ) (p : PostedOn)
        → IsTold size story → message_at story k ≡ Some p → p ≡ record { from = from; to = memory m; message = message.now }
        → IsLive g (slots_in memories.old) nodes (L.stands link.old) book.old story
        → Goes D.tells D.history D.health g (slots_in memories.old) (slots_in memories.new) nodes (L.stands link.new) book.new
        story k m message.now went) }
{
    if memories.is_down(m) {
        return Ok(Went::without_vote(Delivered::Lost));
    }
    book.reserve()?;
    let may = memories.may_grant(m, message);
    let handled = memories.handle(m, from, message)?;
    settle(book, link, m, from, may, handled)
}
