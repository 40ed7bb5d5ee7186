ghost use Rattle.mini_tx.specs.Laws.{IsTypedId, IsTypedCut, IsTypedVote};
ghost use Rattle.mem_rules.specs.Fit.{AreNamesTyped};

use mini_tx::{CutId, Entry, TxId, Vote};

/// The numbers of an identifier are within their types. It computes nothing.
fn id_is_typed(id: TxId)
    ensures { IsTypedId id }
{
    let _id = id;
}

/// The numbers of a cut are within their types. It computes nothing.
fn cut_is_typed(cut: CutId)
    ensures { IsTypedCut cut }
{
    let _cut = cut;
}

/// The numbers of a vote are within their types. It computes nothing.
fn vote_is_typed(vote: &Vote)
    ensures { IsTypedVote vote.now }
{
    match vote {
        Vote::Granted(_) => {}
        Vote::Mismatch { item, .. } => {
            let _item = *item;
        }
        Vote::Locked { holder } => id_is_typed(*holder),
        Vote::Forced { floor } => id_is_typed(*floor),
        Vote::Held { cut } => cut_is_typed(*cut),
    }
}

/// The numbers that an entry names are within their types. It computes nothing.
pub fn names_are_typed(entry: &Entry)
    ensures { AreNamesTyped entry.now }
{
    match entry {
        Entry::Single { id, vote, .. }
        | Entry::Prepared { id, vote, .. }
        | Entry::Refused { id, vote }
        | Entry::Floor { id, vote } => {
            id_is_typed(*id);
            vote_is_typed(vote);
        }
        Entry::Decided { id, .. } | Entry::Forgotten { id } => id_is_typed(*id),
        Entry::Cut { cut } => cut_is_typed(*cut),
    }
}
