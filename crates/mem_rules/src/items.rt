ghost use Rattle.std.specs.Prelude.{◌≡◌, ◌≤◌, ◌+◌, ◌<◌, ◌^◌, ◌∷◌, [], length, map, IfOk, All};
ghost use Rattle.mem_rules.specs.Items.{differs, first_difference, reads_of, writes_of, any_write, range_of};
ghost use Rattle.mem_rules.specs.Fit.{IsInside, AreInside};
ghost use Rattle.mini_tx.specs.Minitransactions.{place_of, bytes_of, is_write};

use crate::difference::Difference;
use crate::image::Image;
use mini_tx::{Bytes, Item, NoMemory, PlacedItem, Range, Ranges, Reads, WriteAt, Writes};
use std::alloc::Global;

/// Whether other bytes stand where a compare item compares.
fn has_changed(image: &Image, item: &Item) -> bool
    requires { IsInside (length image.now) (place_of item.now) (bytes_of item.now) }
    ensures { result ≡ differs image.now item.now }
{
    match item {
        Item::Compare { at, bytes, .. } => !image.same_at(*at, bytes.as_slice()),
        Item::Read { .. } | Item::Write { .. } => false,
    }
}

/// Where an item lies.
pub(crate) fn range(item: &Item) -> Range
    requires { bytes_of item.now < 2 ^ 32 }
    ensures at { result.at ≡ place_of item.now }
    ensures size { result.length ≡ bytes_of item.now }
{
    match item {
        Item::Compare { at, bytes, .. } | Item::Write { at, bytes, .. } => Range {
            at: *at,
            length: bytes.len() as u32,
        },
        Item::Read { at, length, .. } => Range {
            at: *at,
            length: *length,
        },
    }
}

/// The first compare item that differs from what stands in the image.
pub(crate) fn difference(
    alloc: Global,
    image: &Image,
    items: &[PlacedItem],
) -> Result<Option<Difference>, NoMemory>
    requires inside { AreInside (length image.now) items.now }
    requires small { length image.now < 2 ^ 32 }
    ensures { IfOk result (λ found. found ≡ first_difference image.now items.now) }
{
    for placed in items {
        if has_changed(image, &placed.item) {
            let Range { at, length } = range(&placed.item);
            return Ok(Some(Difference {
                place: placed.place,
                kept: image.read(alloc, at, length)?,
            }));
        }
    }
    Ok(None)
}

/// The bytes of the read items.
pub(crate) fn reads(alloc: Global, image: &Image, items: &[PlacedItem]) -> Result<Reads, NoMemory>
    requires { AreInside (length image.now) items.now }
    ensures { IfOk result (λ reads. reads ≡ reads_of image.now items.now) }
{
    let mut reads = Reads::new(alloc);
    for placed in items {
        if let Item::Read { at, length, .. } = &placed.item {
            reads.push(image.read(alloc, *at, *length)?)?;
        }
    }
    Ok(reads)
}

/// The write items.
pub(crate) fn writes(alloc: Global, items: &[PlacedItem]) -> Result<Writes, NoMemory>
    ensures { IfOk result (λ writes. writes ≡ writes_of items.now) }
{
    let mut writes = Writes::new(alloc);
    for placed in items {
        if let Item::Write { at, bytes, .. } = &placed.item {
            writes.push(WriteAt {
                at: *at,
                bytes: Bytes::from_slice(alloc, bytes.as_slice())?,
            })?;
        }
    }
    Ok(writes)
}

/// Where the items lie.
pub(crate) fn ranges(alloc: Global, items: &[PlacedItem]) -> Result<Ranges, NoMemory>
    requires { All (λ (p : _). bytes_of p.item < 2 ^ 32) items.now }
    ensures { IfOk result (λ ranges. ranges ≡ map range_of items.now) }
{
    let mut ranges = Ranges::new(alloc);
    for placed in items {
        ranges.push(range(&placed.item))?;
    }
    Ok(ranges)
}

/// Whether there is a write item.
pub(crate) fn has_write(items: &[PlacedItem]) -> bool
    ensures { result ≡ any_write items.now }
{
    for placed in items {
        if matches!(placed.item, Item::Write { .. }) {
            return true;
        }
    }
    false
}
