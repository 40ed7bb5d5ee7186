ghost use Rattle.std.specs.Prelude.{◌≡◌, ◌++◌, length, map, filter, IfOk, OnOk};
ghost use Rattle.std.specs.List.{flat_map};
ghost use Rattle.tx_coord.specs.Rules.{decide, decides, decisions, finishing_of, forget, is_through as is_over, newest, participants_of, with_decided};

use crate::finishing::{Finishing, MAX_FINISHING};
use crate::outgoing::{Outbox, Outgoing};
use crate::participants::participants;
use crate::progress::Ending;
use mini_tx::{Message, NoMemory, TxId};
use sfs_base::Seq;
use std::alloc::Global;

/// Where there are several participants, tells all of them what was decided, and keeps it as finishing.
pub(crate) fn decided(
    alloc: Global,
    finishing: &mut Vec<Finishing>,
    ending: &Ending,
) -> Result<Outbox, NoMemory>
    ensures posts { IfOk result (λ posts. posts ≡ decisions ending.now.id ending.now.commit (participants_of ending.now.mini)) }
    ensures keeps { OnOk result (finishing.new.items ≡ with_decided ending.now.id ending.now.commit (participants_of ending.now.mini) finishing.old.items) }
{
    let participants = participants(&ending.mini);
    if participants.len() < 2 {
        return Ok(Seq::new(alloc));
    }
    let posts = decides_to(alloc, ending.id, ending.commit, participants)?;
    finishing.push(undone(alloc, ending.id, ending.commit, participants)?)?;
    keep_newest(finishing);
    Ok(posts)
}

/// A decision that no participant is through with.
fn undone(
    alloc: Global,
    id: TxId,
    commit: bool,
    participants: &[u32],
) -> Result<Finishing, NoMemory>
    ensures { IfOk result (λ decided. decided ≡ finishing_of id commit participants.now) }
{
    Ok(Finishing {
        id,
        commit,
        participants: Seq::from_slice(alloc, participants)?,
        waits: Seq::from_slice(alloc, participants)?,
    })
}

/// Lets the oldest go, until no more than [`MAX_FINISHING`] are left.
fn keep_newest(finishing: &mut Vec<Finishing>)
    ensures { finishing.new.items ≡ newest 32 finishing.old.items }
{
    let excess = finishing.len().saturating_sub(MAX_FINISHING);
    finishing.drain(..excess);
}

/// `decide` for each of these.
fn decides_to(alloc: Global, id: TxId, commit: bool, memories: &[u32]) -> Result<Outbox, NoMemory>
    ensures { IfOk result (λ posts. posts ≡ map (decide id commit) memories.now) }
{
    let mut posts = Seq::new(alloc);
    for memory in memories {
        posts.push(Outgoing {
            memory: *memory,
            message: Message::Decide { id, commit },
        })?;
    }
    Ok(posts)
}

/// Each decision, for those whose `done` is missing.
pub(crate) fn decides_again(alloc: Global, finishing: &[Finishing]) -> Result<Outbox, NoMemory>
    ensures { IfOk result (λ posts. posts ≡ flat_map decides finishing.now) }
{
    let mut posts = Seq::new(alloc);
    for decided in finishing {
        posts.append(decides_to(alloc, decided.id, decided.commit, decided.waits.as_slice())?)?;
    }
    Ok(posts)
}

/// `forget` for each participant.
fn forgets_to(alloc: Global, decided: &Finishing) -> Result<Outbox, NoMemory>
    ensures { IfOk result (λ posts. posts ≡ forget decided.now) }
{
    let id = decided.id;
    let mut posts = Seq::new(alloc);
    for memory in decided.participants.as_slice() {
        posts.push(Outgoing {
            memory: *memory,
            message: Message::Forget { id },
        })?;
    }
    Ok(posts)
}

/// Whether all participants are through.
pub(crate) fn is_through(decided: &Finishing) -> bool
    ensures { result ≡ is_over decided.now }
{
    decided.waits.len() == 0
}

/// `forget` of what all are through with.
pub(crate) fn forgets(alloc: Global, finishing: &[Finishing]) -> Result<Outbox, NoMemory>
    ensures { IfOk result (λ posts. posts ≡ flat_map forget (filter is_over finishing.now)) }
{
    let mut posts = Seq::new(alloc);
    for decided in finishing {
        if is_through(decided) {
            posts.append(forgets_to(alloc, decided)?)?;
        }
    }
    Ok(posts)
}
