use fs_layout::{
    Attrs, BITMAPS_AT, BLOCK_BYTES, HANDLE_BYTES, INODE_BITMAP_AT, INODE_BYTES, INODES_AT,
    InodePlace, Layout, NotAReference, Reference, SUPERBLOCK_AT, Superblock, are_zeros,
    read_handle, read_inode, read_superblock, read_words, write_handle, write_inode,
    write_superblock, write_words,
};
use std::test::*;

// A directory: each field tells its place by its value.
const DIRECTORY: Attrs = Attrs {
    kind: Attrs::DIRECTORY,
    mode: 0o755,
    links: 0x0c,
    uid: 0x10,
    gid: 0x14,
    size: 0x18,
    generation: 0x1c,
    used: 0x20,
    change: 0x24_0000_0028,
    atime_sec: 0x2c,
    atime_usec: 0x30,
    mtime_sec: 0x34,
    mtime_usec: 0x38,
    ctime_sec: 0x3c,
    ctime_usec: 0x40,
    first: Some(Reference {
        memory: 0x44,
        block: 0x47,
    }),
    chains: 0x4c,
    parent: 0x50,
    names: 0x54,
};

const DIRECTORY_RECORD: [u8; INODE_BYTES] = [
    0, 0, 0, 2, 0, 0, 1, 0xed, 0, 0, 0, 0xc, 0, 0, 0, 0x10, 0, 0, 0, 0x14, 0, 0, 0, 0x18, 0, 0, 0,
    0x1c, 0, 0, 0, 0x20, 0, 0, 0, 0x24, 0, 0, 0, 0x28, 0, 0, 0, 0x2c, 0, 0, 0, 0x30, 0, 0, 0, 0x34,
    0, 0, 0, 0x38, 0, 0, 0, 0x3c, 0, 0, 0, 0x40, 0, 0, 0, 0x44, 0, 0, 0, 0x48, 0, 0, 0, 0x4c, 0, 0,
    0, 0x50, 0, 0, 0, 0x54, 0, 0, 0, 0, 0, 0, 0, 0, 0, 0, 0, 0, 0, 0, 0, 0, 0, 0, 0, 0, 0, 0, 0, 0,
    0, 0, 0, 0, 0, 0, 0, 0, 0, 0, 0, 0, 0, 0, 0, 0, 0, 0, 0, 0,
];

#[test]
fn a_record_has_its_fields_in_order(rt: HostRuntime) {
    assert!(rt; DIRECTORY.is_inode());
    assert_eq!(rt; write_inode(&DIRECTORY), DIRECTORY_RECORD);
    assert_eq!(rt; read_inode(&DIRECTORY_RECORD), Some(DIRECTORY));
    assert_eq!(rt; read_inode(&DIRECTORY_RECORD[..127]), None);
    let free = Attrs::free(3, 9);
    assert_eq!(rt; read_inode(&write_inode(&free)), Some(free));
}

#[test]
fn a_block_counts_from_one_in_a_reference(rt: HostRuntime) {
    let last = Reference {
        memory: 7,
        block: u32::MAX - 1,
    };
    assert_eq!(rt; Reference::from_words(0, 0), Ok(None));
    assert_eq!(rt; Reference::from_words(7, u32::MAX), Ok(Some(last)));
    assert_eq!(rt; Reference::from_words(7, 0), Err(NotAReference));
    assert!(rt; Reference::has_words(Some(last)));
    assert_eq!(rt; Reference::to_words(Some(last)), [7, u32::MAX]);
}

#[test]
fn a_handle_is_a_mark_a_number_and_a_generation(rt: HostRuntime) {
    let handle: [u8; HANDLE_BYTES] = [
        0x53, 0x46, 0x53, 0x31, 0, 0, 0x40, 1, 0, 0, 0, 2, 0, 0, 0, 0, 0, 0, 0, 0, 0, 0, 0, 0, 0,
        0, 0, 0, 0, 0, 0, 0,
    ];
    assert_eq!(rt; write_handle(0x4001, 2), handle);
    assert_eq!(rt; read_handle(&handle), Some((0x4001, 2)));
    assert_eq!(rt; read_handle(&handle[..31]), None);
}

#[test]
fn a_superblock_is_a_page(rt: HostRuntime) {
    let superblock = Superblock {
        memory: 1,
        memories: 2,
        blocks: 3,
        inodes: 4,
    };
    let mut page = [7; BLOCK_BYTES];
    write_superblock(&superblock, &mut page);
    let words = [
        0x53, 0x46, 0x53, 0x42, 0, 0, 0, 1, 0, 0, 0, 1, 0, 0, 0, 2, 0, 0, 0, 3, 0, 0, 0, 4,
    ];
    assert!(rt; page.starts_with(&words));
    assert_eq!(rt; read_superblock(&page), Some(superblock));
    assert_eq!(rt; read_superblock(&page[1..]), None);
}

#[test]
fn an_image_has_its_parts_in_order(rt: HostRuntime) {
    let least = Layout {
        blocks: 1,
        inodes: 1,
    };
    assert_eq!(rt; least.image_bytes(), 16_384);
    assert_eq!(rt; (least.inode_at(0), least.block_at(0)), (8_192, 12_288));
    assert_eq!(rt;
        (SUPERBLOCK_AT, BITMAPS_AT, INODE_BITMAP_AT, INODES_AT),
        (0, 4_096, 6_144, 8_192)
    );
}

#[test]
fn a_number_tells_where_its_record_lies(rt: HostRuntime) {
    let place = InodePlace {
        memory: 1,
        inode: 0,
    };
    assert_eq!(rt; InodePlace::of(16_385), Some(place));
    assert_eq!(rt; place.number(), 16_385);
    assert_eq!(rt; InodePlace::of(0), None);
}

#[test]
fn words_are_spelled_highest_byte_first(rt: HostRuntime) {
    let mut bytes = [0; 8];
    write_words(&[0x0102_0304, u32::MAX], &mut bytes);
    assert_eq!(rt; bytes, [1, 2, 3, 4, 0xff, 0xff, 0xff, 0xff]);
    assert_eq!(rt; read_words(&bytes), Some([0x0102_0304, u32::MAX]));
    assert!(rt; are_zeros(&[0, 0]));
    assert!(rt; !are_zeros(&bytes));
}

#[test]
fn a_refused_reference_is_told_in_words(rt: HostRuntime) -> Result<(), Fail> {
    assert_eq!(rt;
        format!(in rt.alloc(); "{NotAReference}")?.as_str(),
        "a memory node without a block is no reference"
    );
    Ok(())
}
