ghost use Rattle.std.specs.Prelude.{◌≡◌, map, IfOk};
ghost use Rattle.fs_rules.specs.Geometry.{IsWithinLimits};
ghost use Rattle.fs_rules.specs.Lists.{below};
ghost use Rattle.plan_rules.specs.Orders.{handle_steps};
ghost use Rattle.plan_looks.specs.Goes.{Goes};
ghost use Rattle.read_laws.specs.Answers.{map_read, stat_fs_by};

use fs_layout::BITMAPS_AT;
use mini_tx::{Item, Items};
use nfs_proto::Handle;
use node_cache::{Geometry, Held, NoMemory};
use plan_forms::{AnswerForm, Reading};
use plan_looks::{Looks, Stop, look_file};
use std::alloc::Global;

/// The bits of a byte.
const BITS_PER_BYTE: u32 = 8;

/// STATFS: how many blocks there are, and how many are free (RFC 1094, section 2.2.18).
pub(crate) fn stat_fs(
    alloc: Global,
    held: &Held,
    looks: &mut Looks,
    file: &Handle,
) -> Result<Reading, Stop>
    requires { IsWithinLimits held.now.geometry }
    ensures goes { Goes held.now (handle_steps held.now file.now.0) looks.old looks.new result }
    ensures gives { IfOk result (λ r. r ≡ stat_fs_by held.now.geometry) }
{
    look_file(held, looks, file)?;
    let items = map_reads(alloc, &held.geometry)?;
    Ok(Reading {
        items,
        form: AnswerForm::Space(held.geometry),
    })
}

// The reads of the maps of the blocks of all memory nodes.
fn map_reads(alloc: Global, geometry: &Geometry) -> Result<Items, NoMemory>
    requires { IsWithinLimits geometry.now }
    ensures { IfOk result (λ items. items ≡ map (map_read geometry.now) (below geometry.now.memories)) }
{
    let mut items = Items::new(alloc);
    for memory in 0..geometry.memories {
        items.push(map_read(geometry, memory))?;
    }
    Ok(items)
}

// The read of the map of the blocks of a memory node.
fn map_read(geometry: &Geometry, memory: u32) -> Item
    requires { IsWithinLimits geometry.now }
    ensures { result ≡ map_read geometry.now memory }
{
    Item::Read {
        memory,
        at: BITMAPS_AT,
        length: (geometry.blocks + 7) / BITS_PER_BYTE,
    }
}
