ghost use Rattle.std.specs.Prelude.{◌≡◌, ◌*◌, ◌≤◌, ◌++◌, length, take, OnOk};
ghost use Rattle.plan_room.specs.Picked.{free_blocks, on_memory};

use fs_bitmap::{lowest_free, set};
use fs_layout::Reference;
use node_cache::NoMemory;
use sfs_base::Seq;
use std::alloc::Global;

/// Blocks of the cluster, in order.
pub type Places = Seq<Reference>;

/// Adds the lowest free ones of the first blocks of a memory node, by its map: as many as are needed, at most.
pub(crate) fn push_lowest(
    alloc: Global,
    places: &mut Places,
    memory: u32,
    bits: &[u8],
    blocks: u32,
    need: u32,
) -> Result<(), NoMemory>
    requires { blocks ≤ 8 * length bits.now }
    ensures { OnOk result (places.new ≡ places.old ++ on_memory memory (take need (free_blocks bits.now blocks))) }
{
    let mut map = Vec::from_slice(alloc, bits)?;
    push_marked(places, memory, &mut map, blocks, need)
}

// The same, over a map in which each block is marked once it was added.
fn push_marked(
    places: &mut Places,
    memory: u32,
    map: &mut [u8],
    blocks: u32,
    need: u32,
) -> Result<(), NoMemory>
    requires { blocks ≤ 8 * length map.old }
    ensures { OnOk result (places.new ≡ places.old ++ on_memory memory (take need (free_blocks map.old blocks))) }
{
    if need == 0 {
        return Ok(());
    }
    match lowest_free(map, blocks) {
        Some(block) => {
            places.push(Reference { memory, block })?;
            set(map, block, true);
            push_marked(places, memory, map, blocks, need - 1)
        }
        None => Ok(()),
    }
}
