use fs_rules::{
    Attrs, Blocks, Bytes, Content, Cred, Fattr, File, Geometry, Handle, NoMemory, READ, SEARCH,
    Stamp, handle_of, is_of_group, may, number_at,
};
use sfs_base::Seq;
use std::alloc::Global;
use std::test::*;

// A file of size 6 with one link, and three times that differ.
fn file_with(content: Content) -> File {
    File {
        content,
        mode: 0o4751,
        links: 1,
        uid: 1_000,
        gid: 100,
        size: 6,
        generation: 3,
        change: 9,
        atime: Stamp { sec: 1, usec: 2 },
        mtime: Stamp { sec: 3, usec: 4 },
        ctime: Stamp { sec: 5, usec: 6 },
    }
}

// Blocks at these indices; how long each is counts for nothing here.
fn blocks_at(alloc: Global, indices: &[u32]) -> Result<Blocks, NoMemory> {
    let mut blocks = Blocks::new(alloc);
    for index in indices {
        blocks.insert(*index, Bytes::new(alloc))?;
    }
    Ok(blocks)
}

#[test]
fn each_number_of_a_geometry_has_its_limits(rt: HostRuntime) {
    let greatest = Geometry {
        nodes: 8,
        memories: 8,
        blocks: 16_384,
        inodes: 16_384,
    };
    assert!(rt; greatest.is_within_limits());
    assert!(rt;
        !Geometry {
            nodes: 9,
            ..greatest
        }
        .is_within_limits()
    );
}

#[test]
fn a_handle_spells_mark_number_and_generation(rt: HostRuntime) {
    let handle = handle_of(0x0102_0304, 0x0506_0708);
    let bytes = [
        b'S', b'F', b'S', b'1', 1, 2, 3, 4, 5, 6, 7, 8, 0, 0, 0, 0, 0, 0, 0, 0, 0, 0, 0, 0, 0, 0,
        0, 0, 0, 0, 0, 0,
    ];
    assert_eq!(rt; handle.0, bytes);
    assert_eq!(rt; number_at(&handle), 0x0102_0304);
    assert_eq!(rt; handle, Handle(bytes));
}

#[test]
fn content_tells_its_kind_and_its_blocks(rt: HostRuntime) -> Result<(), Fail> {
    let content = Content::Regular(blocks_at(rt.alloc(), &[0, 7, 510])?);
    assert_eq!(rt;
        (content.kind(), content.type_bits(), content.used()),
        (1, 0o100000, 5)
    );
    let link = Content::Link(blocks_at(rt.alloc(), &[0])?);
    assert_eq!(rt;
        (link.kind(), link.type_bits(), link.used()),
        (5, 0o120000, 2)
    );
    Ok(())
}

#[test]
fn a_client_is_told_of_a_file(rt: HostRuntime) -> Result<(), Fail> {
    let file = file_with(Content::Regular(blocks_at(rt.alloc(), &[0, 1])?));
    assert_eq!(rt;
        file.fattr(16_386),
        Fattr {
            kind: 1,
            mode: 0o104751,
            links: 1,
            uid: 1_000,
            gid: 100,
            size: 6,
            block_size: 4_096,
            rdev: 0,
            blocks: 24,
            fsid: 1,
            fileid: 16_386,
            atime: Stamp { sec: 1, usec: 2 },
            mtime: Stamp { sec: 3, usec: 4 },
            ctime: Stamp { sec: 5, usec: 6 },
        }
    );
    Ok(())
}

// Attributes of a file of user 7 and group 8, of this kind and mode.
fn attributes_of(kind: u32, mode: u32) -> Attrs {
    Attrs {
        kind,
        mode,
        links: 1,
        uid: 7,
        gid: 8,
        size: 0,
        generation: 1,
        used: 0,
        change: 1,
        atime_sec: 0,
        atime_usec: 0,
        mtime_sec: 0,
        mtime_usec: 0,
        ctime_sec: 0,
        ctime_usec: 0,
        first: None,
        chains: 0,
        parent: 0,
        names: 0,
    }
}

// A caller of this user, group and further groups.
fn caller(alloc: Global, uid: u32, gid: u32, further: &[u32]) -> Result<Cred, NoMemory> {
    Ok(Cred {
        uid,
        gid,
        gids: Seq::from_slice(alloc, further)?,
    })
}

#[test]
fn the_first_class_of_a_caller_decides(rt: HostRuntime) -> Result<(), Fail> {
    let alloc = rt.alloc();
    let owner = caller(alloc, 7, 1, &[])?;
    let further = caller(alloc, 9, 1, &[3, 8])?;
    let attributes = attributes_of(1, 0o057);
    assert!(rt; !may(&attributes, &owner, SEARCH));
    assert!(rt; may(&attributes, &further, READ));
    assert!(rt; is_of_group(&further, 8));
    Ok(())
}

#[test]
fn a_stranger_has_the_last_bits_of_a_mode(rt: HostRuntime) -> Result<(), Fail> {
    let file = file_with(Content::Regular(blocks_at(rt.alloc(), &[])?));
    let stranger = caller(rt.alloc(), 1_001, 101, &[])?;
    assert_eq!(rt;
        (file.may(&stranger, SEARCH), file.may(&stranger, READ)),
        (true, false)
    );
    Ok(())
}
