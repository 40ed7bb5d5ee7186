ghost use Rattle.std.specs.Prelude.{◌≡◌, ◌*◌, ◌<◌, [], ◌∷◌, length, All, IfOk};
ghost use Rattle.plan_room.specs.Marks.{AreMarked};

use fs_bitmap::set;
use fs_layout::Reference;
use node_cache::NoMemory;
use std::alloc::Global;

/// The map of a memory node in which these blocks of it are used (`on`) or free, and all others as they were.
pub fn marked(
    alloc: Global,
    bits: &[u8],
    memory: u32,
    places: &[Reference],
    on: bool,
) -> Result<Vec<u8>, NoMemory>
    requires { All (λ r. r.block < 8 * length bits.now) places.now }
    ensures { IfOk result (λ map. AreMarked memory places.now on bits.now map.items) }
{
    let mut map = Vec::from_slice(alloc, bits)?;
    for place in places {
        mark(&mut map, memory, *place, on);
    }
    Ok(map)
}

// Marks one block, where it is one of this memory node.
fn mark(map: &mut Vec<u8>, memory: u32, place: Reference, on: bool)
    requires { place.block < 8 * length map.old.items }
    ensures { AreMarked memory (place ∷ []) on map.old.items map.new.items }
{
    if place.memory == memory {
        set(map.as_mut_slice(), place.block, on);
    }
}
