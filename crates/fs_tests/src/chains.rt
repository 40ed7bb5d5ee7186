use fs_chain::{
    BLOCK_BYTES, ChainBlock, REFERENCES_PER_CHAIN, Reference, References, read_chain, write_chain,
};
use std::test::*;

const FIRST_BLOCK: Option<Reference> = Some(Reference {
    memory: 0,
    block: 0,
});

const LAST_BLOCK: Option<Reference> = Some(Reference {
    memory: 7,
    block: u32::MAX - 1,
});

const LAST: usize = REFERENCES_PER_CHAIN - 1;

// A block whose references are the first and the last block that there can be.
fn sample() -> ChainBlock {
    let mut references = References::new();
    references.set(0, FIRST_BLOCK);
    references.set(LAST, LAST_BLOCK);
    ChainBlock {
        next: Some(Reference {
            memory: 1,
            block: 2,
        }),
        file: 0x4001,
        index: 5,
        references,
    }
}

// The bytes of that block.
fn sample_bytes() -> [u8; BLOCK_BYTES] {
    let mut bytes = [0; BLOCK_BYTES];
    bytes[..24].copy_from_slice(&[
        0, 0, 0, 1, 0, 0, 0, 3, 0, 0, 0x40, 1, 0, 0, 0, 5, 0, 0, 0, 0, 0, 0, 0, 1,
    ]);
    bytes[4_088..].copy_from_slice(&[0, 0, 0, 7, 0xff, 0xff, 0xff, 0xff]);
    bytes
}

#[test]
fn a_block_is_its_header_and_its_references(rt: HostRuntime) {
    let mut bytes = [9; BLOCK_BYTES];
    let block = sample();
    assert!(rt; block.is_chain());
    write_chain(&block, &mut bytes);
    assert_eq!(rt; bytes, sample_bytes());
    assert_eq!(rt; read_chain(&bytes), Some(sample()));
}

#[test]
fn references_are_read_one_by_one(rt: HostRuntime) {
    let references = sample().references;
    assert_eq!(rt; references.get(0), FIRST_BLOCK);
    assert_eq!(rt; references.get(1), None);
    assert_eq!(rt; references.get(LAST), LAST_BLOCK);
    let mut changed = references.clone().expect(&rt, "memory");
    assert_eq!(rt; changed, references);
    changed.set(LAST, None);
    assert_eq!(rt; changed.get(LAST), None);
    assert!(rt; changed != references);
}

#[test]
fn references_are_shown_as_a_list(rt: HostRuntime) {
    let shown = format!(in rt.alloc(); "{:?}", sample().references).expect(&rt, "memory");
    let front = "[Some(Reference { memory: 0, block: 0 }), None, None";
    assert!(rt; shown.as_str().starts_with(front));
}
