use sfs_base::{Bytes, Seq};
use sfs_xdr::{
    Codec, Counted, ItemFault, Reader, Text, Writer, XdrFault, read_many, write_many, write_words,
};
use std::test::*;

// The items 0x01020304, true, the five bytes 1 to 5, and the text "abc".
const ITEMS: [u8; 24] = [
    1, 2, 3, 4, 0, 0, 0, 1, 1, 2, 3, 4, 5, 0, 0, 0, 0, 0, 0, 3, 97, 98, 99, 0,
];

#[test]
fn items_are_written_and_read_again(rt: HostRuntime) -> Result<(), Fail> {
    let mut writer = Writer::with_room(rt.alloc(), 3)?;
    writer.u32(0x01020304)?;
    writer.boolean(true)?;
    writer.opaque(&[1, 2, 3, 4, 5])?;
    writer.opaque_var(b"abc")?;
    let bytes = writer.finish();
    assert_eq!(rt; bytes.as_slice(), ITEMS.as_slice());
    let mut reader = Reader::new(&bytes);
    assert_eq!(rt; reader.u32()?, 0x01020304);
    assert_eq!(rt; reader.boolean()?, true);
    assert_eq!(rt; reader.opaque(5)?, [1, 2, 3, 4, 5].as_slice());
    assert_eq!(rt; reader.opaque_max(3)?, b"abc".as_slice());
    assert!(rt; reader.rest().is_empty());
    Ok(())
}

#[test]
fn a_refused_call_leaves_the_reader(rt: HostRuntime) {
    let bytes = [0, 0, 0, 2, 9, 9];
    let mut reader = Reader::new(&bytes);
    assert_eq!(rt; reader.boolean(), Err(XdrFault::NotBool));
    assert_eq!(rt; reader.opaque(7), Err(XdrFault::Short));
    assert_eq!(rt; reader.opaque_max(1), Err(XdrFault::TooLong));
    assert_eq!(rt; reader.rest(), bytes.as_slice());
}

// Three numbers at most, behind their number.
type Three = Counted<u32, 3>;

#[test]
fn values_are_written_and_read_again(rt: HostRuntime) -> Result<(), Fail> {
    let name = Bytes::from_slice(rt.alloc(), b"ab")?;
    let numbers = Seq::from_slice(rt.alloc(), &[7, 8])?;
    let mut writer = Writer::new(rt.alloc());
    Text::<2>::write(&name, &mut writer)?;
    Three::write(&numbers, &mut writer)?;
    write_words(&mut writer, &[5, 6])?;
    write_many::<bool>(&[false], &mut writer)?;
    let bytes = writer.finish();
    let mut reader = Reader::new(&bytes);
    assert!(rt; Text::<2>::read(rt.alloc(), &mut reader)? == name);
    assert!(rt; Three::read(rt.alloc(), &mut reader)? == numbers);
    let words: Seq<u32> = read_many::<u32>(rt.alloc(), &mut reader, 2)?;
    assert_eq!(rt; words.as_slice(), [5, 6].as_slice());
    assert_eq!(rt; bool::read(rt.alloc(), &mut reader)?, false);
    assert_eq!(rt;
        u32::read(rt.alloc(), &mut reader),
        Err(ItemFault::Malformed)
    );
    Ok(())
}

#[test]
fn faults_are_printed_in_words(rt: HostRuntime) -> Result<(), Fail> {
    let (short, long, other) = (XdrFault::Short, XdrFault::TooLong, XdrFault::NotBool);
    assert_eq!(rt;
        format!(in rt.alloc(); "{short}; {long}; {other}")?.as_str(),
        "the bytes end within an item; a length is above its limit; a boolean is neither 0 nor 1"
    );
    Ok(())
}
