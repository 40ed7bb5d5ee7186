use mount_proto::{ArgFault, LAST_PROCEDURE, answer};
use std::test::*;

// OK, and the handle of the root: its mark "SFS1", its number and generation, and zeros.
const ROOT: [u8; 36] = [
    0, 0, 0, 0, b'S', b'F', b'S', b'1', 0, 0, 0, 1, 0, 0, 0, 1, 0, 0, 0, 0, 0, 0, 0, 0, 0, 0, 0, 0,
    0, 0, 0, 0, 0, 0, 0, 0,
];

// An export: "/", no groups, and no further export.
const EXPORTS: [u8; 20] = [
    0, 0, 0, 1, 0, 0, 0, 1, b'/', 0, 0, 0, 0, 0, 0, 0, 0, 0, 0, 0,
];

#[test]
fn the_root_alone_is_mounted(rt: HostRuntime) -> Result<(), Fail> {
    let slash = [0, 0, 0, 1, b'/', 0, 0, 0];
    assert_eq!(rt; answer(rt.alloc(), 1, &slash)?.as_slice(), ROOT.as_slice());
    assert_eq!(rt; answer(rt.alloc(), 1, &[]), Err(ArgFault::Garbage));
    assert_eq!(rt;
        answer(rt.alloc(), LAST_PROCEDURE, &[])?.as_slice(),
        EXPORTS.as_slice()
    );
    Ok(())
}
