ghost use Rattle.std.specs.Prelude.{◌≡◌, ◌+◌, ◌<◌, ◌≤◌, ◌++◌, [], ◌∷◌, length, take, IfOk, OnOk};
ghost use Rattle.plan_rules.specs.declared.look.Look.TheVariants as look;
ghost use Rattle.plan_rules.specs.Room.{needs_steps, room_maps};
ghost use Rattle.plan_rules.specs.Steps.{Looks as look_at};
ghost use Rattle.plan_rules.specs.Told.{free_on};
ghost use Rattle.plan_rules.specs.Works.{IsWorkSet};
ghost use Rattle.plan_looks.specs.Goes.{Goes};
ghost use Rattle.plan_room.specs.Picked.{free_of, on_memory, picked, picked_from};

use crate::picking::{Places, push_lowest};
use fs_bitmap::count_free;
use fs_checks::Status;
use node_cache::Held;
use plan_looks::{Looks, Stop, look_block_bits};
use std::alloc::Global;

/// So many free blocks for a file of this memory node: the lowest ones of it, and then those of the next memory nodes in a
/// circle. It looks at the maps of as many memory nodes as it needs.
///
/// # Errors
///
/// [`Stop::Need`] where one of these is not held, and [`Status::NOSPC`] where fewer blocks are free on all of them.
pub fn look_room(
    alloc: Global,
    held: &Held,
    looks: &mut Looks,
    home: u32,
    need: u32,
) -> Result<Places, Stop>
    requires work { IsWorkSet held.now }
    requires home { home < held.now.geometry.memories }
    ensures goes { Goes held.now (needs_steps held.now (record { home = home; count = need } ∷ [])) looks.old looks.new result }
    ensures gives { IfOk result (λ places. places ≡ picked held.now home need) }
    ensures all { IfOk result (λ places. length places ≡ need) }
{
    let mut places = Places::new(alloc);
    look_maps(
        alloc,
        held,
        looks,
        &mut places,
        home,
        held.geometry.memories,
        need,
    )?;
    if places.len() < need as usize {
        return Err(Stop::Refused(Status::NOSPC));
    }
    Ok(places)
}

// Adds the free blocks of so many memory nodes in a circle, as many as are needed at most.
fn look_maps(
    alloc: Global,
    held: &Held,
    looks: &mut Looks,
    places: &mut Places,
    at: u32,
    left: u32,
    need: u32,
) -> Result<(), Stop>
    requires work { IsWorkSet held.now }
    requires few { at + left ≤ 16 }
    ensures goes { Goes held.now (room_maps held.now (free_on held.now) at left need) looks.old looks.new result }
    ensures gives { OnOk result (places.new ≡ places.old ++ picked_from held.now at left need) }
{
    if left == 0 {
        return Ok(());
    }
    if need == 0 {
        return Ok(());
    }
    let memory = at % held.geometry.memories;
    let free = look_map(alloc, held, looks, places, memory, need)?;
    look_maps(
        alloc,
        held,
        looks,
        places,
        at + 1,
        left - 1,
        need.saturating_sub(free),
    )
}

// Looks at the map of a memory node, and adds its free blocks, as many as are needed at most. Gives how many are free.
fn look_map(
    alloc: Global,
    held: &Held,
    looks: &mut Looks,
    places: &mut Places,
    memory: u32,
    need: u32,
) -> Result<u32, Stop>
    requires work { IsWorkSet held.now }
    requires memory { memory < held.now.geometry.memories }
    ensures goes { Goes held.now (look_at (look.BlockBits memory) ∷ []) looks.old looks.new result }
    ensures gives { OnOk result (places.new ≡ places.old ++ on_memory memory (take need (free_of held.now memory))) }
    ensures free { IfOk result (λ free. free ≡ free_on held.now memory) }
{
    let bits = look_block_bits(held, looks, memory)?;
    push_lowest(alloc, places, memory, bits, held.geometry.blocks, need)?;
    Ok(count_free(bits, held.geometry.blocks))
}
