use fs_layout::Attrs;
use node_cache::{Bytes, Cache, Chains, Entry, Geometry, Groups, Held};
use std::alloc::Global;
use std::test::*;

// What is held of a free number.
fn entry(alloc: Global, number: u32, change: u64) -> Entry {
    Entry {
        number,
        attrs: Attrs::free(1, change),
        chains: Chains::new(alloc),
        groups: Groups::new(alloc),
    }
}

#[test]
fn an_entry_is_taken_out_once(rt: HostRuntime) -> Result<(), Fail> {
    let mut cache = Cache::new(rt.alloc())?;
    assert!(rt; cache.put(entry(rt.alloc(), 7, 1))?.is_none());
    let older = cache
        .put(entry(rt.alloc(), 7, 2))?
        .map(|entry| entry.attrs.change);
    assert_eq!(rt; older, Some(1));
    assert_eq!(rt; cache.len(), 1);
    assert_eq!(rt; cache.get(7).map(|entry| entry.attrs.change), Some(2));
    assert!(rt; cache.get(7).is_none());
    Ok(())
}

#[test]
fn a_map_is_taken_out_once(rt: HostRuntime) -> Result<(), Fail> {
    let mut cache = Cache::new(rt.alloc())?;
    cache.put_map(3, Bytes::from_slice(rt.alloc(), &[9])?);
    cache.put_map(4, Bytes::new(rt.alloc()));
    let map = cache.get_map(3);
    assert!(rt; map.is_some_and(|map| map.as_slice() == [9].as_slice()));
    assert!(rt; cache.get_map(3).is_none());
    cache.clear();
    assert!(rt; cache.get_map(4).is_none());
    Ok(())
}

#[test]
fn a_work_set_has_a_place_for_each_map(rt: HostRuntime) -> Result<(), Fail> {
    let geometry = Geometry {
        nodes: 1,
        memories: 2,
        blocks: 16,
        inodes: 16,
    };
    let held = Held::new(rt.alloc(), geometry)?;
    assert_eq!(rt; (held.entries.len(), held.maps.len()), (0, 2));
    Ok(())
}
