use crate::images::flat_of;
use crate::wants::wants_of;
use fs_rules::{Cred, handle_of};
use mini_tx::Bytes;
use nfs_proto::Call;
use node_cache::Want;
use std::test::*;

/// The words by which file 2 is a link with a path of four bytes.
const LINK: [(u32, u32); 2] = [(8_320, 5), (8_340, 4)];

/// The record of file 2.
const RECORD: &[Want] = &[Want::Inode(2)];

/// That, and its chaining block.
const BYTES: &[Want] = &[Want::Inode(2), Want::Chain(2, 0)];

/// What tells the names of the root.
const NAMES: &[Want] = &[Want::Inode(1), Want::Chain(1, 0), Want::Slots(1, 0)];

/// That, and the record of file 2.
const NAMED: &[Want] = &[
    Want::Inode(1),
    Want::Chain(1, 0),
    Want::Slots(1, 0),
    Want::Inode(2),
];

#[test]
fn attributes_want_a_record(rt: HostRuntime) -> Result<(), Fail> {
    let alloc = rt.alloc();
    let mut flat = flat_of(alloc, &[])?;
    let call = Call::GetAttr {
        file: handle_of(2, 1),
    };
    let wants = wants_of(alloc, &call, &Cred::nobody(alloc), &mut flat)?;
    assert_eq!(rt; wants.as_slice(), RECORD);
    Ok(())
}

#[test]
fn a_name_wants_slots_and_the_record_of_its_file(rt: HostRuntime) -> Result<(), Fail> {
    let alloc = rt.alloc();
    let mut flat = flat_of(alloc, &[])?;
    let call = Call::Lookup {
        dir: handle_of(1, 1),
        name: Bytes::from_slice(alloc, b"a")?,
    };
    let wants = wants_of(alloc, &call, &Cred::nobody(alloc), &mut flat)?;
    assert_eq!(rt; wants.as_slice(), NAMED);
    Ok(())
}

#[test]
fn a_path_wants_all_chaining_blocks(rt: HostRuntime) -> Result<(), Fail> {
    let alloc = rt.alloc();
    let mut flat = flat_of(alloc, &LINK)?;
    let call = Call::ReadLink {
        file: handle_of(2, 1),
    };
    let wants = wants_of(alloc, &call, &Cred::nobody(alloc), &mut flat)?;
    assert_eq!(rt; wants.as_slice(), BYTES);
    Ok(())
}

#[test]
fn bytes_want_all_chaining_blocks(rt: HostRuntime) -> Result<(), Fail> {
    let alloc = rt.alloc();
    let mut flat = flat_of(alloc, &[])?;
    let call = Call::Read {
        file: handle_of(2, 1),
        offset: 0,
        count: 10,
        total: 0,
    };
    let wants = wants_of(alloc, &call, &Cred::nobody(alloc), &mut flat)?;
    assert_eq!(rt; wants.as_slice(), BYTES);
    Ok(())
}

#[test]
fn names_want_all_slots(rt: HostRuntime) -> Result<(), Fail> {
    let alloc = rt.alloc();
    let mut flat = flat_of(alloc, &[])?;
    let call = Call::ReadDir {
        dir: handle_of(1, 1),
        cookie: 0,
        count: 512,
    };
    let wants = wants_of(alloc, &call, &Cred::nobody(alloc), &mut flat)?;
    assert_eq!(rt; wants.as_slice(), NAMES);
    Ok(())
}

#[test]
fn space_wants_a_record(rt: HostRuntime) -> Result<(), Fail> {
    let alloc = rt.alloc();
    let mut flat = flat_of(alloc, &[])?;
    let call = Call::StatFs {
        file: handle_of(2, 1),
    };
    let wants = wants_of(alloc, &call, &Cred::nobody(alloc), &mut flat)?;
    assert_eq!(rt; wants.as_slice(), RECORD);
    Ok(())
}
