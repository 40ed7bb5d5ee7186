ghost use Rattle.std.specs.Prelude.{◌≡◌, ◌≢◌, ℕ, ◌*◌, ◌<◌, length};
ghost use Rattle.fs_bitmap.specs.Bits.{is_used};

use crate::BITS_PER_BYTE;

/// The first bit of a byte.
const FIRST: u8 = 128;

/// Makes one bit of a map used (`on`) or free, and leaves all others as they are. The bit lies within
/// the map.
pub fn set(map: &mut [u8], bit: u32, on: bool)
    requires { bit < 8 * length map.old }
    ensures changed { is_used map.new bit ≡ on }
    ensures others { (k : ℕ) → k ≢ bit → is_used map.new k ≡ is_used map.old k }
{
    let byte = &mut map[(bit / BITS_PER_BYTE) as usize];
    let mask = FIRST >> (bit % BITS_PER_BYTE);
    *byte = if on { *byte | mask } else { *byte & !mask };
}
