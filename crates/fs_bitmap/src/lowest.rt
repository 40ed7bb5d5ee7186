ghost use Rattle.std.specs.Prelude.{◌≡◌, ◌≢◌, ℕ, ◌+◌, ◌*◌, ◌^◌, ◌<◌, ◌≤◌, Bool, true, false, length, slice_index, IfSome, IfNone};
ghost use Rattle.fs_bitmap.specs.Bits.{has_bit, IsLowestFree, IsNoneFree};

use crate::{BITS_PER_BYTE, FULL};

/// The bytes of a word, by which the search goes.
const WORD_BYTES: usize = 8;

/// The lowest free bit among the first `bits` of a map, which lie within it. None exactly where all of them
/// are used.
pub fn lowest_free(map: &[u8], bits: u32) -> Option<u32>
    requires { bits ≤ 8 * length map.now }
    ensures found { IfSome result (IsLowestFree map.now bits) }
    ensures none { IfNone result (IsNoneFree map.now bits) }
{
    let bytes = bits.div_ceil(BITS_PER_BYTE) as usize;
    let bit = lowest_of_all(&map[..bytes])?;
    if bit < bits { Some(bit) } else { None }
}

// The lowest free bit of a map.
fn lowest_of_all(map: &[u8]) -> Option<u32>
    requires { length map.now ≤ 2 ^ 29 }
    ensures found { IfSome result (IsLowestFree map.now (8 * length map.now)) }
    ensures none { IfNone result (IsNoneFree map.now (8 * length map.now)) }
{
    let index = full_bytes(map);
    if index < map.len() {
        let before = BITS_PER_BYTE * index as u32;
        Some(before + first_free(map[index]))
    } else {
        None
    }
}

// The first free bit of a byte that has one.
fn first_free(byte: u8) -> u32
    requires { byte ≢ 255 }
    ensures within { result < 8 }
    ensures free { has_bit byte result ≡ false }
    ensures before { (k : ℕ) → k < result → has_bit byte k ≡ true }
{
    byte.leading_ones()
}

// How many bytes at the front of a map are full.
fn full_bytes(map: &[u8]) -> usize
    ensures within { result ≤ length map.now }
    ensures full { (k : ℕ) → k < result → slice_index map.now k ≡ 255 }
    ensures next { result < length map.now → slice_index map.now result ≢ 255 }
{
    for index in WORD_BYTES * full_words(map)..map.len() {
        if map[index] != FULL {
            return index;
        }
    }
    map.len()
}

// How many words at the front of a map are full.
fn full_words(map: &[u8]) -> usize
    ensures within { 8 * result ≤ length map.now }
    ensures full { (k : ℕ) → k < 8 * result → slice_index map.now k ≡ 255 }
{
    let words = map.len() / WORD_BYTES;
    for index in 0..words {
        let at = WORD_BYTES * index;
        let word = u64::from_le_bytes([
            map[at],
            map[at + 1],
            map[at + 2],
            map[at + 3],
            map[at + 4],
            map[at + 5],
            map[at + 6],
            map[at + 7],
        ]);
        if word != u64::MAX {
            return index;
        }
    }
    words
}
