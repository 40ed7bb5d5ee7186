ghost use Rattle.std.specs.Prelude.{◌≡◌, ◌<◌, ◌^◌, ◌++◌, List, length, map, OnOk, IfOk};
ghost use Rattle.mini_tx.specs.declared.posted.Posted.{Posted as PostedOn};
ghost use Rattle.story_rules.specs.Steps.{answered, sent_by};
ghost use Rattle.cluster_steps.specs.Live.{vote_number};

use crate::queue::Queue;
use cluster_parts::is_granted_vote;
use link_model::Link;
use mini_tx::{Actor, Message};
use sfs_base::NoMemory;
use tx_coord::Outbox;

/// How many messages a link takes at the most.
const MAX_MESSAGES: u64 = 1 << 62;

/// Posts the answer of a memory node, where it has one, and gives the number of a Granted vote.
pub(crate) fn post_answer<L: Link>(
    link: &mut L,
    m: u32,
    to: Actor,
    answer: Option<Message>,
) -> Result<Option<u64>, NoMemory>
    requires { (L.shown link.old).count < 2 ^ 62 }
    ensures posted { OnOk result ((posted : List PostedOn) → L.stands link.old posted → L.stands link.new (posted ++ answered m to answer)) }
    ensures vote { IfOk result (λ vote. (posted : List PostedOn) → L.stands link.old posted → vote ≡ vote_number (length posted) answer) }
{
    let grants = is_granted_vote(&answer);
    match answer {
        Some(message) => {
            let k = link.post(Actor::Memory(m), to, message)?;
            Ok(if grants { Some(k) } else { None })
        }
        None => Ok(None),
    }
}

/// Posts the messages of a node. [`NoMemory`]: there is no memory, or the link has 2^62 messages.
pub(crate) fn post_all<L: Link>(link: &mut L, n: u32, posts: Outbox) -> Result<(), NoMemory>
    requires { (L.shown link.old).count < 2 ^ 62 }
    ensures { OnOk result ((posted : List PostedOn) → L.stands link.old posted → L.stands link.new (posted ++ map (sent_by n) posts)) }
{
    let mut queue = Queue::new(posts);
    while let Some(outgoing) = queue.next() {
        let k = link.post(
            Actor::Node(n),
            Actor::Memory(outgoing.memory),
            outgoing.message,
        )?;
        if k >= MAX_MESSAGES {
            return Err(NoMemory);
        }
    }
    Ok(())
}
