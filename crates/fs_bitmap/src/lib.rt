//! The bitmaps of a memory node, which tell its used blocks and inodes.
//!
//! Bit k of a map is the mask `128 >> (k % 8)` of byte `k / 8`, and 1 stands for used. [`lowest_free`]
//! and [`count_free`] answer what going through the bits one by one would, and look at whole words and
//! bytes instead. A caller sees to it that the bits that it names lie within the map. No call takes memory.
#![tactic(auto)]

mod bit;
mod count;
mod lowest;

pub use bit::set;
pub use count::count_free;
pub use lowest::lowest_free;

/// The bits of a byte.
pub const BITS_PER_BYTE: u32 = 8;

/// A byte whose bits are all used.
const FULL: u8 = 0xff;
