ghost use Rattle.std.specs.Prelude.{◌≡◌, ◌↔◌, ◌++◌, ◌≤◌, ◌<◌, ◌+◌, length, Some, None, All, IsTrue, IfOk, OnOk, OnErr, Ok};
ghost use Rattle.mini_tx.specs.FlatMemory.{ItemMatches, Matches, IsWithin, reads, after, bytes_at, with_bytes, held_by};

use crate::item::Item;
use crate::mini::Mini;
use crate::vote::Reads;
use sfs_base::{Bytes, NoMemory, Seq};
use std::alloc::Global;
use std::mem;

/// Performs a minitransaction on the flat memory, which has the bytes of each memory node in their order
/// (Aguilera et al., "Sinfonia", SOSP 2007, section 3.1). Where the bytes of each compare item stand at
/// their place, it writes the write items and gives the bytes of the read items as they were before. Where
/// they do not, and for want of memory, nothing changes. Each item lies within its memory node, as those of
/// a minitransaction do that was made for memory nodes of this size ([`crate::valid_items_lie_within`]).
pub fn perform(alloc: Global, mini: &Mini, flat: &mut [Bytes]) -> Result<Option<Reads>, NoMemory>
    requires { All (IsWithin flat.old) mini.now }
    ensures performed { (read : _) → result ≡ Ok (Some read) → Matches mini.now flat.old × (read ≡ reads mini.now flat.old) × (flat.new ≡ after mini.now flat.old) }
    ensures mismatch { result ≡ Ok None → (Matches mini.now flat.old → ⊥) × (flat.new ≡ flat.old) }
    ensures err { OnErr result (flat.new ≡ flat.old) }
{
    let items = mini.items().as_slice();
    if !matches(items, flat) {
        return Ok(None);
    }
    let read = read_all(alloc, items, flat)?;
    write_all(alloc, items, flat);
    Ok(Some(read))
}

// Whether the bytes of each compare item stand at their place.
fn matches(items: &[Item], flat: &[Bytes]) -> bool
    requires { All (IsWithin flat.now) items.now }
    ensures { IsTrue result ↔ Matches items.now flat.now }
{
    for item in items {
        if !item_matches(item, flat) {
            return false;
        }
    }
    true
}

// Whether the bytes of an item, if it is a compare item, stand at their place.
fn item_matches(item: &Item, flat: &[Bytes]) -> bool
    requires { IsWithin flat.now item.now }
    ensures { IsTrue result ↔ ItemMatches flat.now item.now }
{
    match item {
        Item::Compare { memory, at, bytes } => bytes_of(flat, *memory, *at, bytes.len())
            == bytes.as_slice(),
        Item::Read { .. } | Item::Write { .. } => true,
    }
}

// The bytes of the read items, in their order.
fn read_all(alloc: Global, items: &[Item], flat: &[Bytes]) -> Result<Reads, NoMemory>
    requires { All (IsWithin flat.now) items.now }
    ensures { IfOk result (λ read. read ≡ reads items.now flat.now) }
{
    let mut read = Seq::new(alloc);
    for item in items {
        if let Item::Read { memory, at, length } = item {
            let bytes = bytes_of(flat, *memory, *at, *length as usize);
            read.push(Bytes::from_slice(alloc, bytes)?)?;
        }
    }
    Ok(read)
}

// Puts the write items in place, one behind the other.
fn write_all(alloc: Global, items: &[Item], flat: &mut [Bytes])
    requires { All (IsWithin flat.old) items.now }
    ensures { flat.new ≡ after items.now flat.old }
{
    for item in items {
        if let Item::Write { memory, at, bytes } = item {
            write_at(alloc, &mut flat[*memory as usize], *at, bytes.as_slice());
        }
    }
}

// So many bytes of a memory node, from a place on.
fn bytes_of(flat: &[Bytes], memory: u32, at: u32, len: usize) -> &[u8]
    requires { (memory < length flat.now) × (at + len ≤ length (held_by flat.now memory)) }
    ensures { result.now ≡ bytes_at (held_by flat.now memory) at len }
{
    let at = at as usize;
    &flat[memory as usize].as_slice()[at..at + len]
}

// Writes bytes over those of an image, from a place on.
fn write_at(alloc: Global, image: &mut Bytes, at: u32, bytes: &[u8])
    requires { at + length bytes.now ≤ length image.old }
    ensures { image.new ≡ with_bytes image.old at bytes.now }
{
    let at = at as usize;
    let mut written = mem::replace(image, Bytes::new(alloc)).into_vec();
    written[at..at + bytes.len()].copy_from_slice(bytes);
    *image = Bytes::from(written);
}
