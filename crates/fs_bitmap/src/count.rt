ghost use Rattle.std.specs.Prelude.{◌≡◌, ℕ, ◌*◌, ◌<◌, ◌≤◌, length};
ghost use Rattle.fs_bitmap.specs.Bits.{free_below, free_in_byte};

use crate::{BITS_PER_BYTE, FULL};

/// How many of the first `bits` of a map, which lie within it, are free.
pub fn count_free(map: &[u8], bits: u32) -> u32
    requires { bits ≤ 8 * length map.now }
    ensures { result ≡ free_below map.now bits }
{
    let whole = (bits / BITS_PER_BYTE) as usize;
    let mut free = 0;
    for byte in &map[..whole] {
        free += byte.count_zeros();
    }
    let rest = bits % BITS_PER_BYTE;
    if rest == 0 {
        free
    } else {
        free + free_of(map[whole], rest)
    }
}

// How many of the first bits of a byte are free.
fn free_of(byte: u8, bits: u32) -> u32
    requires { bits < 8 }
    ensures exact { result ≡ free_in_byte byte bits }
    ensures small { result ≤ bits }
{
    let behind = FULL >> bits;
    (byte | behind).count_zeros()
}
