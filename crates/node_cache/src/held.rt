ghost use Rattle.std.specs.Prelude.{◌≡◌, [], None, length, replicate, IfOk};

use crate::entry::Entry;
use fs_rules::Geometry;
use sfs_base::{Bytes, NoMemory, Seq};
use std::alloc::Global;

/// Entries of files.
pub type HeldEntries = Seq<Entry>;

/// The maps of memory nodes, each at the place of its memory node.
pub type Maps = Seq<Option<Bytes>>;

/// What a call has read so far, and what it took out of the cache: its work set.
#[derive(Debug, Drop)]
pub struct Held {
    /// How large the cluster is.
    pub geometry: Geometry,
    /// The entries, in ascending number of their files.
    pub entries: HeldEntries,
    /// A place for each memory node, with its map where that is held.
    pub maps: Maps,
}

impl Held {
    /// The empty work set of a cluster of this size. [`NoMemory`] where its places find no memory.
    pub fn new(alloc: Global, geometry: Geometry) -> Result<Held, NoMemory>
        ensures { IfOk result (λ held. held ≡ record {
          geometry = geometry;
          entries = [];
          maps = replicate geometry.memories None;
        }) }
    {
        Ok(Held {
            geometry,
            entries: Seq::new(alloc),
            maps: no_maps(alloc, geometry.memories)?,
        })
    }
}

/// So many places without a map.
pub(crate) fn no_maps(alloc: Global, places: u32) -> Result<Maps, NoMemory>
    ensures { IfOk result (λ maps. maps ≡ replicate places None) }
{
    let mut maps = Maps::new(alloc);
    for _ in 0..places {
        maps.push(None)?;
    }
    Ok(maps)
}

/// Lets all maps go. It takes no memory.
pub(crate) fn forget_all(maps: &mut Maps)
    ensures { maps.new ≡ replicate (length maps.old) None }
{
    for memory in 0..maps.len() {
        maps.replace(memory, None);
    }
}
