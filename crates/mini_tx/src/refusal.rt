ghost use Rattle.std.specs.Prelude.{◌≡◌, ◌≤◌, ◌<◌, ◌+◌, nat_lt, length};
ghost use Rattle.mini_tx.specs.Minitransactions.{bytes_of_all, overlaps_any, first_outside, first_overlap, refusal};

use crate::item::Item;
use crate::limits::{MAX_ITEM_BYTES, MAX_ITEMS};
use crate::mini_fault::MiniFault;

/// Why these items make no minitransaction over `memories` memory nodes of `size` bytes: the first cause
/// in the order of [`MiniFault`]. It takes no memory.
pub(crate) fn refusal_of(items: &[Item], memories: u32, size: u32) -> Option<MiniFault>
    ensures { result ≡ refusal items.now memories size }
{
    if items.is_empty() {
        return Some(MiniFault::Empty);
    }
    if items.len() > MAX_ITEMS {
        return Some(MiniFault::TooManyItems);
    }
    if has_too_many_bytes(items) {
        return Some(MiniFault::TooLarge);
    }
    if let Some(item) = first_outside_of(items, memories, size) {
        return Some(MiniFault::OutOfRange { item });
    }
    match first_overlap_of(items) {
        Some(item) => Some(MiniFault::Overlap { item }),
        None => None,
    }
}

// Whether all items have more bytes than a minitransaction may have.
fn has_too_many_bytes(items: &[Item]) -> bool
    ensures { result ≡ nat_lt 1048576 (bytes_of_all items.now) }
{
    let mut left = MAX_ITEM_BYTES;
    for item in items {
        let bytes = item.bytes();
        if left < bytes {
            return true;
        }
        left -= bytes;
    }
    false
}

// The first item that is empty, of a memory node that is not there, or ends past the size.
fn first_outside_of(items: &[Item], memories: u32, size: u32) -> Option<u32>
    requires { length items.now ≤ 512 }
    ensures { result ≡ first_outside memories size 0 items.now }
{
    let mut place = 0;
    for item in items {
        if item.is_outside(memories, size) {
            return Some(place);
        }
        place += 1;
    }
    None
}

// The first write item that overlaps an earlier one.
fn first_overlap_of(items: &[Item]) -> Option<u32>
    requires { length items.now ≤ 512 }
    ensures { result ≡ first_overlap items.now 0 items.now }
{
    let mut place = 0;
    for item in items {
        if overlaps_any_of(item, &items[..place as usize]) {
            return Some(place);
        }
        place += 1;
    }
    None
}

// Whether an item overlaps one of these.
fn overlaps_any_of(item: &Item, others: &[Item]) -> bool
    ensures { result ≡ overlaps_any item.now others.now }
{
    for other in others {
        if item.overlaps(other) {
            return true;
        }
    }
    false
}
