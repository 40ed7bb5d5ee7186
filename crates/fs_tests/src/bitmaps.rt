use fs_bitmap::{BITS_PER_BYTE, count_free, lowest_free, set};
use std::test::*;

#[test]
fn the_lowest_free_bit_is_found(rt: HostRuntime) {
    let map = [0xff, 0xe0];
    assert_eq!(rt; lowest_free(&map, 12), Some(11));
    assert_eq!(rt; lowest_free(&map, BITS_PER_BYTE), None);
}

#[test]
fn a_bit_is_set_and_freed_alone(rt: HostRuntime) {
    let mut map = [0; 2];
    set(&mut map, 11, true);
    assert_eq!(rt; map, [0, 0x10]);
    set(&mut map, 11, false);
    assert_eq!(rt; map, [0, 0]);
}

#[test]
fn free_bits_are_counted_up_to_the_last(rt: HostRuntime) {
    let map = [0x7f, 0b1010_1111];
    assert_eq!(rt; count_free(&map, 10), 2);
    assert_eq!(rt; count_free(&map, 16), 3);
}
