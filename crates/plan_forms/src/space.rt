ghost use Rattle.std.specs.Prelude.{◌≡◌, ◌*◌, ◌≤◌, length, All, sum_by, take};
ghost use Rattle.fs_bitmap.specs.Bits.{free_below};
ghost use Rattle.fs_rules.specs.Geometry.{IsWithinLimits};
ghost use Rattle.plan_forms.specs.Forms.{AreMapsFor, free_in, space_of};

use fs_bitmap::count_free;
use nfs_proto::Answer;
use node_cache::{Bytes, Geometry};

/// The best size of a transfer, and the size of a block, as a client is told them.
const TRANSFER_BYTES: u32 = 8_192;

const BLOCK_BYTES: u32 = 4_096;

/// The blocks of a cluster, and those that are free by the maps of its memory nodes.
pub(crate) fn space(geometry: &Geometry, maps: &[Bytes]) -> Answer
    requires { AreMapsFor geometry.now maps.now }
    ensures { result ≡ space_of geometry.now maps.now }
{
    let free = free_in(geometry.blocks, maps);
    Answer::Space {
        tsize: TRANSFER_BYTES,
        bsize: BLOCK_BYTES,
        blocks: geometry.memories * geometry.blocks,
        bfree: free,
        bavail: free,
    }
}

// How many blocks are free by these maps.
fn free_in(blocks: u32, maps: &[Bytes]) -> u32
    requires few { length maps.now ≤ 8 }
    requires small { blocks ≤ 16384 }
    requires whole { All (λ map. blocks ≤ 8 * length map) maps.now }
    ensures { result ≡ free_in blocks maps.now }
{
    let mut free = 0;
    for map in maps {
        free += count_free(map.as_slice(), blocks);
    }
    free
}
