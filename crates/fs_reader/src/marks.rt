ghost use Rattle.std.specs.Prelude.{◌≡◌, ◌*◌, ◌<◌, ◌↔◌, true, false, length, IsTrue, OnOk, OnErr};
ghost use Rattle.fs_bitmap.specs.Bits.{is_used};
ghost use Rattle.fs_image.specs.Records.{IsSet};
ghost use Rattle.fs_image.specs.Stands.{IsBlock};
ghost use Rattle.fs_rules.specs.Geometry.{IsWithinLimits};
ghost use Rattle.fs_reader.specs.Marks.{bit_of};

use crate::tree_fault::TreeFault;
use fs_bitmap::{BITS_PER_BYTE, set};
use fs_layout::{MAX_BLOCKS, Reference};
use fs_rules::Geometry;

/// The first bit of a byte.
const FIRST: u8 = 128;

// Takes the mark of a block. `NoTree` exactly where it is no block of this cluster, or has no mark: then it
// is free, or a part was found in it before.
pub(crate) fn take(geometry: &Geometry, left: &mut [u8], at: Reference) -> Result<(), TreeFault>
    requires limits { IsWithinLimits geometry.now }
    requires sized { length left.old ≡ 2048 * geometry.now.memories }
    ensures sized { length left.new ≡ 2048 * geometry.now.memories }
    ensures inside { OnOk result (IsBlock geometry.now at) }
    ensures marked { OnOk result (is_used left.old (bit_of at) ≡ true) }
    ensures taken { OnOk result (IsSet left.old left.new (bit_of at) false) }
    ensures none { OnErr result (IsBlock geometry.now at → is_used left.old (bit_of at) ≡ true → ⊥) }
{
    if !is_block(geometry, at) {
        return Err(TreeFault::NoTree);
    }
    let bit = MAX_BLOCKS * at.memory + at.block;
    if !is_marked(left, bit) {
        return Err(TreeFault::NoTree);
    }
    set(left, bit, false);
    Ok(())
}

// Whether it is a block of this cluster.
fn is_block(geometry: &Geometry, at: Reference) -> bool
    ensures { IsTrue result ↔ IsBlock geometry.now at }
{
    at.memory < geometry.memories && at.block < geometry.blocks
}

/// Whether a bit of a map is 1.
#[tactic(auto, unfolding(fs_bitmap::specs::Bits::has_bit))]
pub fn is_marked(map: &[u8], bit: u32) -> bool
    requires { bit < 8 * length map.now }
    ensures { result ≡ is_used map.now bit }
{
    let byte = map[(bit / BITS_PER_BYTE) as usize];
    byte & (FIRST >> (bit % BITS_PER_BYTE)) != 0
}
