use mini_tx::Bytes;
use node_cache::NoMemory;
use std::alloc::Global;

/// The bytes of the image of a memory node with eight blocks and eight inodes.
const IMAGE_BYTES: usize = 45_056;

/// The words of a small tree that are not 0, by their addresses: the records of files 1 and 2, and blocks 0 to 3 behind
/// them. File 1 is the root, whose one slot names file 2 "a"; file 2 has 4,100 bytes, of which the last four are stored.
const WORDS: [(u32, u32); 26] = [
    (8_192, 2),
    (8_196, 0o777),
    (8_200, 2),
    (8_212, 4_096),
    (8_216, 1),
    (8_220, 2),
    (8_260, 1),
    (8_264, 1),
    (8_268, 1),
    (8_272, 1),
    (8_320, 1),
    (8_324, 0o666),
    (8_328, 1),
    (8_340, 4_100),
    (8_344, 1),
    (8_348, 2),
    (8_388, 3),
    (8_392, 1),
    (12_296, 1),
    (12_308, 2),
    (16_384, 2),
    (16_388, 1),
    (16_392, 0x6100_0000),
    (20_488, 2),
    (20_508, 4),
    (24_576, 0x6461_7461),
];

/// The flat memory with this tree, where this word stands at this address instead.
pub(crate) fn flat_with(alloc: Global, at: u32, word: u32) -> Result<[Bytes; 1], NoMemory> {
    flat_of(alloc, &[(at, word)])
}

/// The flat memory with this tree, where these words stand at their addresses instead.
pub(crate) fn flat_of(alloc: Global, words: &[(u32, u32)]) -> Result<[Bytes; 1], NoMemory> {
    let mut image = Vec::new(alloc);
    image.resize(IMAGE_BYTES, 0)?;
    for (at, word) in WORDS {
        put(&mut image, at, word);
    }
    for (at, word) in words {
        put(&mut image, *at, *word);
    }
    Ok([Bytes::from(image)])
}

// Writes a word, where it lies within the bytes.
fn put(bytes: &mut [u8], at: u32, word: u32) {
    let at = at as usize;
    if at + 4 <= bytes.len() {
        bytes[at..at + 4].copy_from_slice(&word.to_be_bytes());
    }
}
