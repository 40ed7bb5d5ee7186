//! What a work set leaves in the cache.
ghost use Rattle.std.specs.Prelude.{◌≡◌, ◌+◌, ◌<◌, ◌≤◌, length, if◌then◌else◌, OnOk};
ghost use Rattle.node_cache.specs.Cached.{put_first};
ghost use Rattle.node_rules.specs.End.{files_after, is_among, map_after, maps_after};

use node_cache::{Bytes, Cache, Entry, Held, HeldEntries, Maps, NoMemory};

/// The entries of the files that were not changed go from a work set to the cache, in ascending number, and so do the maps
/// that were not written. [`NoMemory`]: only some of them did.
pub fn put_back(
    changed: &[u32],
    written: &[u32],
    held: Held,
    cache: &mut Cache,
) -> Result<(), NoMemory>
    requires { length held.maps ≤ 8 }
    ensures { OnOk result (cache.new ≡ record {
      files = files_after changed.now held.entries cache.old.files;
      maps = maps_after written.now 0 held.maps cache.old.maps;
    }) }
{
    put_files(changed, held.entries, cache)?;
    put_maps(written, held.maps, cache);
    Ok(())
}

// The entries of the files that were not changed go to the cache.
#[tactic(auto, unfolding(node_rules::specs::End::files_after))]
fn put_files(changed: &[u32], entries: HeldEntries, cache: &mut Cache) -> Result<(), NoMemory>
    ensures { OnOk result (cache.new ≡ record cache.old { files = files_after changed.now entries cache.old.files }) }
{
    for entry in entries.into_vec() {
        put_file(changed, entry, cache)?;
    }
    Ok(())
}

// An entry goes to the cache, if its file was not changed.
fn put_file(changed: &[u32], entry: Entry, cache: &mut Cache) -> Result<(), NoMemory>
    ensures { OnOk result (cache.new ≡ record cache.old {
      files = if is_among changed.now entry.number then cache.old.files else put_first entry cache.old.files;
    }) }
{
    if !is_among(changed, entry.number) {
        cache.put(entry)?;
    }
    Ok(())
}

// The maps that were not written go to the cache.
#[tactic(auto, unfolding(node_rules::specs::End::maps_after))]
fn put_maps(written: &[u32], maps: Maps, cache: &mut Cache)
    requires { length maps ≤ 8 }
    ensures { cache.new ≡ record cache.old { maps = maps_after written.now 0 maps cache.old.maps } }
{
    let mut memory = 0;
    for map in maps.into_vec() {
        put_map(written, memory, map, cache);
        memory += 1;
    }
}

// The map of a memory node goes to the cache, if it was not written.
fn put_map(written: &[u32], memory: u32, map: Option<Bytes>, cache: &mut Cache)
    requires { memory < 8 }
    ensures { cache.new ≡ record cache.old { maps = map_after written.now memory map cache.old.maps } }
{
    if let Some(page) = map {
        if !is_among(written, memory) {
            cache.put_map(memory, page);
        }
    }
}

// Whether a number is among these.
fn is_among(numbers: &[u32], number: u32) -> bool
    ensures { result ≡ is_among numbers.now number }
{
    numbers.iter().any(|other| *other == number)
}
