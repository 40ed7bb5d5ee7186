use fs_content::{file_named, list_names, put_name, read_part, slot_of, take_name, write_bytes};
use fs_rules::{Answer, Blocks, Bytes, Entry, NoMemory, Slots};
use nfs_proto::{DirEntries, DirEntry};
use std::alloc::Global;
use std::test::*;

#[test]
fn what_was_written_is_read_with_zeros_around(rt: HostRuntime) -> Result<(), Fail> {
    let mut blocks = Blocks::new(rt.alloc());
    write_bytes(rt.alloc(), &mut blocks, 4_094, &[1, 2, 3])?;
    assert_eq!(rt; (blocks.len(), blocks.last_key()), (2, Some(1)));
    let read = read_part(rt.alloc(), &blocks, 4_093, 5)?;
    assert_eq!(rt; read.as_slice(), [0, 1, 2, 3, 0].as_slice());
    Ok(())
}

// A name of a file.
fn entry(alloc: Global, name: &[u8], file: u32) -> Result<Entry, NoMemory> {
    Ok(Entry {
        name: Bytes::from_slice(alloc, name)?,
        file,
    })
}

// The names of the files 8 and 9 in the first and third slot.
fn two_names(alloc: Global) -> Result<Slots, NoMemory> {
    let mut slots = Slots::new(alloc);
    put_name(alloc, &mut slots, entry(alloc, b"ab", 8)?)?;
    put_name(alloc, &mut slots, entry(alloc, b"gone", 6)?)?;
    put_name(alloc, &mut slots, entry(alloc, b"abcde", 9)?)?;
    take_name(&mut slots, b"gone");
    Ok(slots)
}

#[test]
fn a_name_takes_the_lowest_empty_slot(rt: HostRuntime) -> Result<(), Fail> {
    let mut slots = two_names(rt.alloc())?;
    put_name(rt.alloc(), &mut slots, entry(rt.alloc(), b"new", 7)?)?;
    assert_eq!(rt; slots.len(), 15);
    assert_eq!(rt; slot_of(&slots, b"new"), Some(1));
    assert_eq!(rt; file_named(&slots, b"new"), Some(7));
    Ok(())
}

// An entry of a listing.
fn listed(alloc: Global, fileid: u32, name: &[u8], cookie: u32) -> Result<DirEntry, NoMemory> {
    Ok(DirEntry {
        fileid,
        name: Bytes::from_slice(alloc, name)?,
        cookie,
    })
}

#[test]
fn names_are_listed_behind_themselves_and_their_parent(rt: HostRuntime) -> Result<(), Fail> {
    let alloc = rt.alloc();
    let mut entries = DirEntries::new(alloc);
    entries.push(listed(alloc, 5, b".", 1)?)?;
    entries.push(listed(alloc, 1, b"..", 2)?)?;
    entries.push(listed(alloc, 8, b"ab", 3)?)?;
    entries.push(listed(alloc, 9, b"abcde", 5)?)?;
    let answer = list_names(alloc, 5, 1, &two_names(alloc)?, 0, 4_096)?;
    assert_eq!(rt; answer, Answer::Names { entries, eof: true });
    Ok(())
}
