ghost use Rattle.std.specs.Prelude.{◌≡◌, ◌<◌, ◌^◌, IfOk, All};
ghost use Rattle.mini_tx.specs.Minitransactions.{bytes_of};
ghost use Rattle.mem_rules.specs.Rules.{entry_of_vote, has_several, is_logged};

use crate::items::{has_write, ranges, writes};
use mini_tx::{Entry, NoMemory, Numbers, PlacedItem, TxId, Vote};
use std::alloc::Global;

/// A copy of a vote.
pub(crate) fn copied(vote: &Vote) -> Result<Vote, NoMemory>
    ensures { IfOk result (λ copy. copy ≡ vote.now) }
{
    Ok(vote.clone()?)
}

/// Whether several memory nodes take part.
fn has_several(participants: &[u32]) -> bool
    ensures { result ≡ has_several participants.now }
{
    participants.len() >= 2
}

/// Whether a new vote has an entry.
pub(crate) fn is_logged(participants: &[u32], items: &[PlacedItem]) -> bool
    ensures { result ≡ is_logged participants.now items.now }
{
    has_several(participants) || has_write(items)
}

/// The entry of a new vote.
pub(crate) fn entry_of(
    alloc: Global,
    id: TxId,
    participants: &[u32],
    items: &[PlacedItem],
    vote: Vote,
) -> Result<Entry, NoMemory>
    requires { All (λ (p : _). bytes_of p.item < 2 ^ 32) items.now }
    ensures { IfOk result (λ entry. entry ≡ entry_of_vote id participants.now items.now vote) }
{
    if !vote.is_granted() {
        return Ok(Entry::Refused { id, vote });
    }
    let writes = writes(alloc, items)?;
    if !has_several(participants) {
        return Ok(Entry::Single { id, vote, writes });
    }
    Ok(Entry::Prepared {
        id,
        participants: Numbers::from_slice(alloc, participants)?,
        vote,
        ranges: ranges(alloc, items)?,
        writes,
    })
}
