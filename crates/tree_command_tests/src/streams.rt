use schedule_text::{Calls, PlanSink, PlanSource};
use sfs_base::{Bytes, NoMemory};
use std::alloc::Global;
use std::test::*;
use tree_command::{Ending, Stop, write_tree};

/// The line of the smallest cluster.
const HEAD: &[u8] = b"cluster 1 1 1 1\n";

/// Its fresh superblock: the mark, the version, and the numbers of this memory node, of memory nodes, blocks and
/// inodes.
const SUPERBLOCK: &[u8] =
    b"SFSB\x00\x00\x00\x01\x00\x00\x00\x00\x00\x00\x00\x01\x00\x00\x00\x01\x00\x00\x00\x01";

/// Its listing.
const LISTING: &[u8] = b"file 1 1 dir 0777 2 0 0 0 1 0 0 0 0 0 0\n";

// Puts bytes behind a text that was filled up with zeros to this place.
fn put(text: &mut Vec<u8>, at: u32, bytes: &[u8]) -> Result<(), NoMemory> {
    text.resize(HEAD.len() + at as usize, 0)?;
    text.extend_from_slice(bytes)?;
    Ok(())
}

// The line of the smallest cluster and its fresh image, of which the first byte of the inodes' map is this one. The record
// of the root stands at 8,192: a directory with mode 0777 and two links, its generation, its change number and its parent.
fn text(alloc: Global, bits: u8) -> Result<Bytes, NoMemory> {
    let mut text = Vec::from_slice(alloc, HEAD)?;
    put(&mut text, 0, SUPERBLOCK)?;
    put(&mut text, 6_144, &[bits])?;
    put(
        &mut text,
        8_192,
        b"\x00\x00\x00\x02\x00\x00\x01\xff\x00\x00\x00\x02",
    )?;
    put(&mut text, 8_192 + 24, b"\x00\x00\x00\x01")?;
    put(&mut text, 8_192 + 36, b"\x00\x00\x00\x01")?;
    put(&mut text, 8_192 + 76, b"\x00\x00\x00\x01")?;
    put(&mut text, 16_384, &[])?;
    Ok(Bytes::from(text))
}

fn source(alloc: Global, bits: u8, failing: &[u64]) -> Result<PlanSource, Fail> {
    Ok(PlanSource::new(text(alloc, bits)?, Calls::from_slice(alloc, failing)?))
}

fn sink(alloc: Global, failing: &[u64]) -> Result<PlanSink, Fail> {
    Ok(PlanSink::new(alloc, 64, Calls::from_slice(alloc, failing)?)?)
}

#[test]
fn a_fresh_image_is_listed(rt: HostRuntime) -> Result<(), Fail> {
    let mut input = source(rt.alloc(), 0x80, &[])?;
    let mut output = sink(rt.alloc(), &[])?;
    let ended = write_tree(rt.alloc(), &mut input, &mut output);
    assert_eq!(rt; ended, Ok(Ending::Listed));
    assert_eq!(rt; output.bytes(), LISTING);
    Ok(())
}

#[test]
fn a_changed_bit_is_no_tree(rt: HostRuntime) -> Result<(), Fail> {
    let mut input = source(rt.alloc(), 0, &[])?.in_pieces(5_000);
    let mut output = sink(rt.alloc(), &[])?.in_pieces(3);
    let ended = write_tree(rt.alloc(), &mut input, &mut output);
    assert_eq!(rt; ended, Ok(Ending::Refused));
    assert_eq!(rt; output.bytes(), b"fault tree\n".as_slice());
    Ok(())
}

// The line takes sixteen reads of a byte, and the image the next one.
#[test]
fn a_failed_read_ends_it(rt: HostRuntime) -> Result<(), Fail> {
    let mut input = source(rt.alloc(), 0x80, &[17])?;
    let mut output = sink(rt.alloc(), &[])?;
    let ended = write_tree(rt.alloc(), &mut input, &mut output);
    assert_eq!(rt; ended, Err(Stop::ReadFault));
    assert_eq!(rt; (input.faults(), output.bytes().len()), (1, 0));
    Ok(())
}

#[test]
fn a_failed_write_ends_it(rt: HostRuntime) -> Result<(), Fail> {
    let mut input = source(rt.alloc(), 0x80, &[])?;
    let mut output = sink(rt.alloc(), &[2])?.in_pieces(10);
    let ended = write_tree(rt.alloc(), &mut input, &mut output);
    assert_eq!(rt; ended, Err(Stop::WriteFault));
    assert_eq!(rt;
        (output.faults(), output.bytes()),
        (1, b"file 1 1 d".as_slice())
    );
    Ok(())
}
