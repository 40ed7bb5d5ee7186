ghost use Rattle.std.specs.Prelude.{◌≡◌, ◌∷◌, [], IfOk};
ghost use Rattle.mini_tx.specs.declared.item.Item.TheVariants.{Compare as compare_item, Read as read_item, Write as write_item};

use mini_tx::{
    Bytes, CutId, Entry, EntryFault, Item, Items, Mini, MiniFault, NoMemory, Numbers, Range,
    Ranges, TxId, Vote, WriteAt, perform, read_entry, write_entry,
};
use sfs_base::Seq;
use std::alloc::Global;
use std::test::*;

#[test]
fn identifiers_are_ordered_by_coordinator_then_boot_then_number(
    rt: HostRuntime,
) -> Result<(), Fail> {
    let least = TxId {
        coord: 1,
        boot: 9,
        seq: 9,
    };
    let boot = TxId {
        coord: 2,
        boot: 3,
        seq: 9,
    };
    let seq = TxId {
        coord: 2,
        boot: 4,
        seq: 1,
    };
    assert!(rt; least < boot);
    assert!(rt; boot < seq);
    assert!(rt; seq == seq);
    Ok(())
}

#[test]
fn cuts_are_ordered_by_boot_then_number(rt: HostRuntime) -> Result<(), Fail> {
    let earlier = CutId { boot: 3, seq: 9 };
    let later = CutId { boot: 4, seq: 1 };
    assert!(rt; earlier < later);
    assert!(rt; later < CutId { boot: 4, seq: 2 });
    Ok(())
}

const ID: TxId = TxId {
    coord: 1,
    boot: 2,
    seq: 3,
};

#[test]
fn a_prepared_entry_is_spelled_and_read(rt: HostRuntime) -> Result<(), Fail> {
    let reads = one(rt.alloc(), bytes(rt.alloc(), &[1, 2, 3, 4])?)?;
    let write = WriteAt {
        at: 8,
        bytes: bytes(rt.alloc(), &[9])?,
    };
    let entry = Entry::Prepared {
        id: ID,
        participants: Numbers::from_slice(rt.alloc(), &[0, 1])?,
        vote: Vote::Granted(reads),
        ranges: Ranges::from_slice(rt.alloc(), &[Range { at: 8, length: 4 }])?,
        writes: one(rt.alloc(), write)?,
    };
    let spelled = [
        0, 0, 0, 2, 0, 0, 0, 1, 0, 0, 0, 0, 0, 0, 0, 2, 0, 0, 0, 0, 0, 0, 0, 3, 0, 0, 0, 2, 0, 0,
        0, 0, 0, 0, 0, 1, 0, 0, 0, 0, 0, 0, 0, 1, 0, 0, 0, 4, 1, 2, 3, 4, 0, 0, 0, 1, 0, 0, 0, 8,
        0, 0, 0, 4, 0, 0, 0, 1, 0, 0, 0, 8, 0, 0, 0, 1, 9, 0, 0, 0,
    ];
    assert_eq!(rt;
        write_entry(rt.alloc(), &entry)?.as_slice(),
        spelled.as_slice()
    );
    assert_eq!(rt; read_entry(rt.alloc(), &spelled)?, entry);
    Ok(())
}

fn bytes(alloc: Global, from: &[u8]) -> Result<Bytes, NoMemory>
    ensures { IfOk result (λ bytes. bytes ≡ from.now) }
{
    Bytes::from_slice(alloc, from)
}

fn one<T: Drop>(alloc: Global, item: T) -> Result<Seq<T>, NoMemory>
    ensures { IfOk result (λ list. list ≡ item ∷ []) }
{
    let mut list = Seq::new(alloc);
    list.push(item)?;
    Ok(list)
}

fn read(at: u32, length: u32) -> Item
    ensures { result ≡ read_item 0 at length }
{
    Item::Read {
        memory: 0,
        at,
        length,
    }
}

// Compares the second byte of memory node 1 with `compared`, reads two bytes of memory node 0, and writes 9
// to the first byte of memory node 1.
fn sample(alloc: Global, compared: u8) -> Result<Mini, MiniFault>
    ensures { IfOk result (λ m. m ≡ compare_item 1 1 (compared ∷ []) ∷ read_item 0 1 2 ∷ write_item 1 0 (9 ∷ []) ∷ []) }
{
    let mut items = Items::new(alloc);
    items.push(Item::Compare {
        memory: 1,
        at: 1,
        bytes: bytes(alloc, &[compared])?,
    })?;
    items.push(read(1, 2))?;
    items.push(Item::Write {
        memory: 1,
        at: 0,
        bytes: bytes(alloc, &[9])?,
    })?;
    Mini::new(alloc, items, 2, 4)
}

#[test]
fn what_matches_is_read_and_written(rt: HostRuntime) -> Result<(), Fail> {
    let alloc = rt.alloc();
    let mut flat = [bytes(alloc, &[1, 2, 3, 4])?, bytes(alloc, &[5, 6, 7, 8])?];
    let mini = sample(alloc, 6).map_err(|_| NoMemory)?;
    let read = one(alloc, bytes(alloc, &[2, 3])?)?;
    assert_eq!(rt; perform(alloc, &mini, &mut flat)?, Some(read));
    assert_eq!(rt; flat[0].as_slice(), [1, 2, 3, 4].as_slice());
    assert_eq!(rt; flat[1].as_slice(), [9, 6, 7, 8].as_slice());
    Ok(())
}

#[test]
fn a_fault_tells_its_cause(rt: HostRuntime) -> Result<(), Fail> {
    let overlap = MiniFault::Overlap { item: 3 };
    assert_eq!(rt;
        overlap.to_string(rt.alloc())?.as_str(),
        "item 3 overlaps an earlier one"
    );
    assert_eq!(rt;
        EntryFault::Bad.to_string(rt.alloc())?.as_str(),
        "the bytes are no entry of a log"
    );
    Ok(())
}
