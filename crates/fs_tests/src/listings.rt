use fs_listing::{Listing, listing};
use fs_rules::{Blocks, Content, Entry, File, Files, Geometry, PlainTree, ROOT, Slots, Stamp};
use sfs_base::{Bytes, NoMemory, Table};
use std::alloc::Global;
use std::test::*;

// A tree with no file.
fn empty_tree(alloc: Global) -> PlainTree {
    PlainTree {
        geometry: Geometry {
            nodes: 2,
            memories: 2,
            blocks: 64,
            inodes: 64,
        },
        files: Files::new(alloc),
        freed: Table::new(alloc),
    }
}

// The root of a fresh tree.
fn fresh_root(alloc: Global) -> File {
    let zero = Stamp { sec: 0, usec: 0 };
    File {
        content: Content::Directory {
            slots: Slots::new(alloc),
            parent: ROOT,
        },
        mode: 0o777,
        links: 2,
        uid: 0,
        gid: 0,
        size: 0,
        generation: 1,
        change: 1,
        atime: zero,
        mtime: zero,
        ctime: zero,
    }
}

// A file in which each number differs from all others.
fn file_with(content: Content) -> File {
    File {
        content,
        mode: 0o4071,
        links: 3,
        uid: 1_000,
        gid: 100,
        size: 6,
        generation: 7,
        change: u64::MAX,
        atime: Stamp { sec: 10, usec: 11 },
        mtime: Stamp { sec: 12, usec: 13 },
        ctime: Stamp { sec: 14, usec: 15 },
    }
}

// Blocks with one block.
fn block_at(alloc: Global, index: u32, bytes: &[u8]) -> Result<Blocks, NoMemory> {
    let mut blocks = Blocks::new(alloc);
    blocks.insert(index, Bytes::from_slice(alloc, bytes)?)?;
    Ok(blocks)
}

// A name.
fn name(alloc: Global, bytes: &[u8], file: u32) -> Result<Option<Entry>, NoMemory> {
    let name = Bytes::from_slice(alloc, bytes)?;
    Ok(Some(Entry { name, file }))
}

// The lines, in one text with an end behind each.
fn text_of(alloc: Global, lines: &Listing) -> Result<Vec<u8>, NoMemory> {
    let mut text = Vec::new(alloc);
    for line in lines.as_slice() {
        text.extend_from_slice(line.as_slice())?;
        text.push(b'\n')?;
    }
    Ok(text)
}

#[test]
fn a_fresh_tree_has_the_line_of_its_root(rt: HostRuntime) -> Result<(), Fail> {
    let mut tree = empty_tree(rt.alloc());
    tree.files.insert(ROOT, fresh_root(rt.alloc()))?;
    let lines = listing(rt.alloc(), &tree)?;
    assert_eq!(rt;
        text_of(rt.alloc(), &lines)?.as_slice(),
        b"file 1 1 dir 0777 2 0 0 0 1 0 0 0 0 0 0\n".as_slice()
    );
    Ok(())
}

#[test]
fn names_and_blocks_follow_their_file(rt: HostRuntime) -> Result<(), Fail> {
    let alloc = rt.alloc();
    let mut slots = Slots::new(alloc);
    slots.push(None)?;
    slots.push(name(alloc, b"a\xff", 3)?)?;
    slots.push(name(alloc, b"Z", 2)?)?;
    let mut tree = empty_tree(alloc);
    let regular = Content::Regular(block_at(alloc, 4_079, b"\x00\x7f\xa0")?);
    tree.files.insert(4_294_967_295, file_with(regular))?;
    tree.files.insert(
        ROOT,
        file_with(Content::Directory {
            slots,
            parent: ROOT,
        }),
    )?;
    tree.files
        .insert(2, file_with(Content::Link(block_at(alloc, 0, b"/")?)))?;
    let lines = listing(alloc, &tree)?;
    assert_eq!(rt; lines.len(), 7);
    assert_eq!(rt;
        text_of(alloc, &lines)?.as_slice(),
        b"file 1 7 dir 4071 3 1000 100 6 18446744073709551615 10 11 12 13 14 15\n\
name 1 1 61ff 3\n\
name 1 2 5a 2\n\
file 2 7 lnk 4071 3 1000 100 6 18446744073709551615 10 11 12 13 14 15\n\
data 2 0 2f\n\
file 4294967295 7 reg 4071 3 1000 100 6 18446744073709551615 10 11 12 13 14 15\n\
data 4294967295 4079 007fa0\n"
            .as_slice()
    );
    Ok(())
}
