use crate::images::flat_with;
use crate::serving::{Step, nothing_held, run, serve};
use fs_rules::{Cred, handle_of};
use mini_tx::Bytes;
use nfs_proto::{Answer, Call};
use node_cache::{NoMemory, Want};
use rpc_msg::Gids;
use std::alloc::Global;
use std::test::*;

// User 0.
fn root_user(alloc: Global) -> Cred {
    Cred {
        uid: 0,
        gid: 0,
        gids: Gids::new(alloc),
    }
}

// Whether a step answers with these bytes of a file.
fn gives(step: &Step, wanted: &[u8]) -> bool {
    match step {
        Step::Answered(Answer::Part { bytes, .. }) => bytes.as_slice() == wanted,
        _ => false,
    }
}

// The number of the file that a step finds.
fn found_by(step: &Step) -> Option<u32> {
    match step {
        Step::Answered(Answer::Found { attr, .. }) => Some(attr.fileid),
        _ => None,
    }
}

#[test]
fn a_read_is_served_part_by_part(rt: HostRuntime) -> Result<(), Fail> {
    let alloc = rt.alloc();
    let mut flat = flat_with(alloc, 8_192, 2)?;
    let mut held = nothing_held(alloc)?;
    let call = Call::Read {
        file: handle_of(2, 1),
        offset: 4_094,
        count: 100,
        total: 0,
    };
    let cred = root_user(alloc);
    assert!(rt;
        matches!(
            serve(alloc, &call, &cred, &mut held, &mut flat)?,
            Step::Held(Want::Inode(2))
        )
    );
    assert!(rt;
        matches!(
            serve(alloc, &call, &cred, &mut held, &mut flat)?,
            Step::Held(Want::Chain(2, 0))
        )
    );
    let step = serve(alloc, &call, &cred, &mut held, &mut flat)?;
    assert!(rt; gives(&step, b"\0\0data"));
    Ok(())
}

#[test]
fn a_name_is_looked_up_part_by_part(rt: HostRuntime) -> Result<(), Fail> {
    let alloc = rt.alloc();
    let mut flat = flat_with(alloc, 8_192, 2)?;
    let mut held = nothing_held(alloc)?;
    let call = Call::Lookup {
        dir: handle_of(1, 1),
        name: Bytes::from_slice(alloc, b"a")?,
    };
    let cred = root_user(alloc);
    assert!(rt;
        matches!(
            serve(alloc, &call, &cred, &mut held, &mut flat)?,
            Step::Held(Want::Inode(1))
        )
    );
    assert!(rt;
        matches!(
            serve(alloc, &call, &cred, &mut held, &mut flat)?,
            Step::Held(Want::Chain(1, 0))
        )
    );
    assert!(rt;
        matches!(
            serve(alloc, &call, &cred, &mut held, &mut flat)?,
            Step::Held(Want::Slots(1, 0))
        )
    );
    assert!(rt;
        matches!(
            serve(alloc, &call, &cred, &mut held, &mut flat)?,
            Step::Held(Want::Inode(2))
        )
    );
    let step = serve(alloc, &call, &cred, &mut held, &mut flat)?;
    assert_eq!(rt; found_by(&step), Some(2));
    Ok(())
}

// The address that a step tells as damaged.
fn damaged_at(step: &Step) -> Option<u32> {
    match step {
        Step::Damaged { at, .. } => Some(*at),
        _ => None,
    }
}

// The address of the first record or block that a LOOKUP of "a" finds unfit, where this word stands at this address.
fn damage_with(alloc: Global, at: u32, word: u32) -> Result<Option<u32>, NoMemory> {
    let mut flat = flat_with(alloc, at, word)?;
    let mut held = nothing_held(alloc)?;
    let call = Call::Lookup {
        dir: handle_of(1, 1),
        name: Bytes::from_slice(alloc, b"a")?,
    };
    let step = run(alloc, &call, &root_user(alloc), &mut held, &mut flat, 8)?;
    Ok(damaged_at(&step))
}

/// A word that makes bytes unfit, by its address, and the address of the record or block that is unfit then: one case for
/// each sentence of "What a call wants" in `docs/FORMATS.md`.
const UNFIT: [(u32, u32, u32); 20] = [
    // a record outside the grammar: no such kind, and a mode of more than 12 bits
    (8_192, 3, 8_192),
    (8_196, 0o10_000, 8_192),
    // a chaining block outside of it, with a reference that has a memory node and no place; and slots, with a name that is too long
    (12_304, 1, 12_288),
    (16_388, 256, 16_384),
    // a directory with more than one chaining block, and a file with more than eight
    (8_264, 2, 8_192),
    (8_392, 9, 8_320),
    // a directory that is too large, and a link whose path is too long
    (8_212, 2_093_056, 8_192),
    (8_320, 5, 8_320),
    // a reference that is not below the number of memory nodes, and one not below that of blocks
    (8_256, 1, 8_192),
    (8_260, 9, 8_192),
    (12_304, 7, 12_288),
    (12_308, 9, 12_288),
    // a chaining block of another file, and one with another index
    (12_296, 2, 12_288),
    (12_300, 1, 12_288),
    // a list of chaining blocks that goes on, and one that ends before its number
    (12_292, 3, 12_288),
    (8_260, 0, 8_192),
    // a block that the size tells has no reference
    (12_308, 0, 12_288),
    // a parent that is no number of this cluster, a slot in use that has none, and one with a name that no file has
    (8_268, 9, 8_192),
    (16_384, 9, 16_384),
    (16_392, 0x2f00_0000, 16_384),
];

#[test]
fn unfit_bytes_are_told_by_their_address(rt: HostRuntime) -> Result<(), Fail> {
    for (at, word, address) in UNFIT {
        assert_eq!(rt;
            (at, damage_with(rt.alloc(), at, word)?),
            (at, Some(address))
        );
    }
    Ok(())
}
