use fs_dir::{
    BLOCK_BYTES, MAX_NAME_BYTES, NoMemory, Seq, Slot, SlotFault, Slots, are_slots, find,
    lowest_empty, read_slots, write_slots,
};
use std::alloc::Global;
use std::test::*;

const LONGEST: [u8; MAX_NAME_BYTES] = [0x61; MAX_NAME_BYTES];

// Slots of which the fourth has the name "a", the sixth the longest name there is, and the last "ab".
fn sample(alloc: Global) -> Result<Slots, NoMemory> {
    let mut slots = Seq::new(alloc);
    for index in 0..15 {
        let (number, name): (u32, &[u8]) = match index {
            3 => (7, b"a"),
            5 => (0x4001, &LONGEST),
            14 => (9, b"ab"),
            _ => (0, b""),
        };
        slots.push(Slot {
            number,
            name: Seq::from_slice(alloc, name)?,
        })?;
    }
    Ok(slots)
}

// The bytes of the block with those slots.
fn sample_bytes() -> [u8; BLOCK_BYTES] {
    let mut bytes = [0; BLOCK_BYTES];
    bytes[816..825].copy_from_slice(&[0, 0, 0, 7, 0, 0, 0, 1, 0x61]);
    bytes[1_360..1_368].copy_from_slice(&[0, 0, 0x40, 1, 0, 0, 0, 255]);
    bytes[1_368..1_623].copy_from_slice(&LONGEST);
    bytes[3_808..3_818].copy_from_slice(&[0, 0, 0, 9, 0, 0, 0, 2, 0x61, 0x62]);
    bytes
}

#[test]
fn a_block_is_its_slots_and_zeros(rt: HostRuntime) -> Result<(), Fail> {
    let slots = read_slots(rt.alloc(), &sample_bytes())?;
    assert!(rt; slots == sample(rt.alloc())?);
    assert!(rt; are_slots(&slots));
    let mut bytes = [9; BLOCK_BYTES];
    write_slots(&slots, &mut bytes);
    assert_eq!(rt; bytes, sample_bytes());
    bytes[825] = 1;
    assert!(rt; read_slots(rt.alloc(), &bytes) == Err(SlotFault::Bad));
    Ok(())
}

#[test]
fn a_name_is_found_whole(rt: HostRuntime) -> Result<(), Fail> {
    let slots = sample(rt.alloc())?;
    assert_eq!(rt; find(&slots, b"a"), Some(3));
    assert_eq!(rt; find(&slots, b"b"), None);
    assert_eq!(rt; lowest_empty(&slots), Some(0));
    Ok(())
}

#[test]
fn faults_are_told_in_words(rt: HostRuntime) -> Result<(), Fail> {
    let bad = SlotFault::Bad;
    let no_memory = SlotFault::from(NoMemory);
    assert_eq!(rt;
        format!(in rt.alloc(); "{bad}; {no_memory}")?.as_str(),
        "the bytes are no block of a directory; no memory"
    );
    Ok(())
}
