//! The image of a memory node with one directory: all its slots name the file 2, by names of four bytes.

ghost use Rattle.std.specs.Prelude.{◌<◌, ◌≤◌};

use mini_tx::Bytes;
use node_cache::{Geometry, NoMemory};
use std::alloc::Global;

/// One node and one memory node, with as many blocks as the largest directory has.
pub const CLUSTER: Geometry = Geometry {
    nodes: 1,
    memories: 1,
    blocks: 512,
    inodes: 8,
};

/// The most blocks of a directory.
pub const MOST_BLOCKS: u32 = 510;

/// The slots of a block.
pub const SLOTS: u32 = 15;

/// The bytes of the image.
const IMAGE_BYTES: usize = 2_109_440;

/// The words of the records of the root and of file 2 that are not 0 and not told by the number of blocks, by their
/// addresses, and those at the head of the root's chaining block.
const WORDS: [(u32, u32); 13] = [
    (8_192, 2),
    (8_196, 0o777),
    (8_200, 2),
    (8_216, 1),
    (8_260, 1),
    (8_264, 1),
    (8_268, 1),
    (8_320, 1),
    (8_324, 0o666),
    (8_328, 1),
    (8_344, 1),
    (12_296, 1),
    (12_300, 0),
];

/// The image in which the directory has so many blocks.
pub fn image_of(alloc: Global, blocks: u32) -> Result<[Bytes; 1], NoMemory>
    requires { blocks ≤ 510 }
{
    let mut image = Vec::new(alloc);
    image.resize(IMAGE_BYTES, 0)?;
    for (at, word) in WORDS {
        put(&mut image, at, word);
    }
    put(&mut image, 8_212, 4_096 * blocks);
    put_references(&mut image, blocks);
    put_slots(&mut image, SLOTS * blocks);
    Ok([Bytes::from(image)])
}

/// The name in a slot.
pub fn name_of(slot: u32) -> [u8; 4] {
    word_of(slot).to_be_bytes()
}

// Four letters by the number of a slot.
fn word_of(slot: u32) -> u32 {
    0x6161_6161
        + slot % 16
        + 256 * (slot / 16 % 16)
        + 65_536 * (slot / 256 % 16)
        + 16_777_216 * (slot / 4_096 % 16)
}

// The references of the chaining block: the blocks lie behind it, one after the other.
fn put_references(image: &mut [u8], blocks: u32)
    requires { blocks ≤ 510 }
{
    for index in 0..blocks {
        put(image, 12_308 + 8 * index, index + 2);
    }
}

fn put_slots(image: &mut [u8], slots: u32)
    requires { slots ≤ 7650 }
{
    for slot in 0..slots {
        put_slot(image, slot);
    }
}

fn put_slot(image: &mut [u8], slot: u32)
    requires { slot < 7650 }
{
    let at = 16_384 + 4_096 * (slot / SLOTS) + 272 * (slot % SLOTS);
    put(image, at, 2);
    put(image, at + 4, 4);
    put(image, at + 8, word_of(slot));
}

// Writes a word, where it lies within the bytes.
fn put(bytes: &mut [u8], at: u32, word: u32) {
    let at = at as usize;
    if at + 4 <= bytes.len() {
        bytes[at..at + 4].copy_from_slice(&word.to_be_bytes());
    }
}
