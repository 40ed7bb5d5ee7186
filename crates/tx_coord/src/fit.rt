ghost use Rattle.std.specs.Prelude.{◌≡◌};
ghost use Rattle.std.specs.List.{list_any};
ghost use Rattle.tx_coord.specs.Rules.{compares_at, fits as fits_items, have_lengths, is_compare, placed_for, read_lengths};

use crate::participants::memory;
use mini_tx::{Bytes, Item, Vote};

/// Whether an item compares.
fn compares(item: &Item) -> bool
    ensures { result ≡ is_compare item.now }
{
    matches!(item, Item::Compare { .. })
}

/// Whether these are the bytes of each read item of a memory node, in order.
fn are_reads(items: &[Item], memory_node: u32, reads: &[Bytes]) -> bool
    ensures { result ≡ have_lengths (read_lengths (placed_for items.now memory_node)) reads.now }
{
    let mut next = 0;
    for item in items {
        if let Item::Read { memory, length, .. } = item {
            if *memory == memory_node {
                if next >= reads.len() || reads[next].len() != *length as usize {
                    return false;
                }
                next += 1;
            }
        }
    }
    next == reads.len()
}

/// Whether the item at a place compares, and is of a memory node.
fn names_compare(items: &[Item], memory_node: u32, place: u32) -> bool
    ensures { result ≡ list_any (compares_at place) (placed_for items.now memory_node) }
{
    match items.get(place as usize) {
        Some(item) => memory(item) == memory_node && compares(item),
        None => false,
    }
}

/// Whether a vote of a memory node fits its items.
pub(crate) fn fits(items: &[Item], memory_node: u32, vote: &Vote) -> bool
    ensures { result ≡ fits_items (placed_for items.now memory_node) vote.now }
{
    match vote {
        Vote::Granted(reads) => are_reads(items, memory_node, reads.as_slice()),
        Vote::Mismatch { item, .. } => names_compare(items, memory_node, *item),
        Vote::Locked { .. } | Vote::Forced { .. } | Vote::Held { .. } => true,
    }
}
