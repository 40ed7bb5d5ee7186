ghost use Rattle.std.specs.Prelude.{◌≡◌, ◌<◌, [], Some, None, length, slice_get, slice_set, unwrap_or, replicate, IfOk, OnOk, OnErr};
ghost use Rattle.std.specs.Option.{option_map};
ghost use Rattle.node_cache.specs.Cached.{held_of, but_for, put_first, pushed_out, IsBounded};

use crate::entry::Entry;
use crate::held::{Maps, forget_all, no_maps};
use fs_layout::MAX_MEMORIES;
use lru::LruCache;
use sfs_base::{Bytes, NoMemory};
use std::alloc::Global;
use std::marker::Model;
use std::num::NonZeroUsize;

/// The files of which a cache keeps an entry at most.
pub const MAX_FILES: usize = 64;

/// The entries of the files that were used last, and a map at most of each memory node. A contract sees the entries, the
/// one that was used last first, and a place for each memory node.
#[derive(Debug, Drop)]
pub struct Cache {
    files: LruCache<u32, Entry>,
    maps: Maps,
}

impl Model for Cache {
    ghost use Rattle.std.specs.Prelude.{map};
    ghost use Rattle.node_cache.specs.Cached.{Cached, IsKept};

    ghost Value = { Cached };

    ghost view = { λ c. record { files = map (λ e. e.1) c.files.entries; maps = c.maps } };

    ghost invariant = { λ c. IsKept c.files c.maps };
}

impl Cache {
    /// The empty cache. [`NoMemory`] where its places find no memory.
    pub fn new(alloc: Global) -> Result<Cache, NoMemory>
        ensures { IfOk result (λ c. c ≡ record { files = []; maps = replicate 8 None }) }
    {
        Ok(Cache {
            files: LruCache::new(alloc, NonZeroUsize::new(MAX_FILES).unwrap())?,
            maps: no_maps(alloc, MAX_MEMORIES)?,
        })
    }

    /// How many entries there are. No two are of one file.
    pub fn len(&self) -> usize
        ensures value { result ≡ length self.now.files }
        ensures bounded { IsBounded self.now.files }
    {
        self.files.len()
    }

    /// Takes out the entry of a file. None exactly where there is none. It takes no memory.
    pub fn get(&mut self, number: u32) -> Option<Entry>
        ensures gives { result ≡ held_of number self.old.files }
        ensures after { self.new ≡ record self.old { files = but_for number self.old.files } }
    {
        self.files.pop(&number)
    }

    /// Puts an entry first, and gives the one of the same file, or else the last one where there were [`MAX_FILES`]. On
    /// [`NoMemory`] the entry is gone, and the cache is as before.
    pub fn put(&mut self, entry: Entry) -> Result<Option<Entry>, NoMemory>
        ensures gives { IfOk result (λ out. out ≡ pushed_out entry self.old.files) }
        ensures after { OnOk result (self.new ≡ record self.old { files = put_first entry self.old.files }) }
        ensures err { OnErr result (self.new ≡ self.old) }
    {
        let out = self.files.push(entry.number, entry)?;
        Ok(without_key(out))
    }

    /// Lets all entries and all maps go. It takes no memory.
    pub fn clear(&mut self)
        ensures { self.new ≡ record { files = []; maps = replicate 8 None } }
    {
        self.files.clear();
        forget_all(&mut self.maps);
    }

    /// Takes out the map of a memory node. None where there is none, also where there is no such memory node. It takes no
    /// memory.
    pub fn get_map(&mut self, m: u32) -> Option<Bytes>
        ensures gives { result ≡ unwrap_or (slice_get self.old.maps m) None }
        ensures after { self.new ≡ record self.old { maps = slice_set self.old.maps m None } }
    {
        if (m as usize) < self.maps.len() {
            self.maps.replace(m as usize, None)
        } else {
            None
        }
    }

    /// Puts the map of a memory node in the place of the one that was there. It takes no memory.
    pub fn put_map(&mut self, m: u32, map: Bytes)
        requires { m < 8 }
        ensures { self.new ≡ record self.old { maps = slice_set self.old.maps m (Some map) } }
    {
        self.maps.replace(m as usize, Some(map));
    }
}

// The entry of a pair.
fn without_key(pair: Option<(u32, Entry)>) -> Option<Entry>
    ensures { result ≡ option_map (λ e. e.1) pair }
{
    match pair {
        Some((_number, entry)) => Some(entry),
        None => None,
    }
}
