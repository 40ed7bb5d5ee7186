ghost use Rattle.std.specs.Prelude.{◌≡◌, Ok, Err, IfOk};
ghost use Rattle.sfs_xdr.specs.declared.item_fault.ItemFault.TheVariants.{Malformed as malformed};
ghost use Rattle.mini_tx.specs.EntryGrammar.{are_participants, ascends_from};
ghost use Rattle.mini_tx.specs.EntryReading.{entry_item, entry_fields, single_of, prepared_of, refused_of, decided_of, floor_of, granted_item, refusal_item, participants_item, entry_of};
ghost use Rattle.mini_tx.specs.declared.entry_fault.EntryFault.TheVariants.{Bad as bad};

use crate::Numbers;
use crate::cut_id::CutId;
use crate::entry::Entry;
use crate::entry_fault::EntryFault;
use crate::limits::LONGEST;
use crate::range::Range;
use crate::tx_id::TxId;
use crate::vote::Vote;
use crate::write_at::WriteAt;
use sfs_xdr::{Codec, Counted, ItemFault, Reader};
use std::alloc::Global;

/// Reads an entry (`docs/FORMATS.md`, "Entries of a log"). `Bad` exactly where the bytes are no entry:
/// also where what fills up is not zero, and where bytes stand behind the last field.
pub fn read_entry(alloc: Global, bytes: &[u8]) -> Result<Entry, EntryFault>
    ensures found { IfOk result (λ entry. entry_of bytes.now ≡ Ok entry) }
    ensures bad { result ≡ Err bad → entry_of bytes.now ≡ Err tt }
{
    let mut reader = Reader::new(bytes);
    match read_prefix(alloc, &mut reader) {
        Ok(entry) => {
            if reader.rest().is_empty() {
                Ok(entry)
            } else {
                Err(EntryFault::Bad)
            }
        }
        Err(ItemFault::Malformed) => Err(EntryFault::Bad),
        Err(ItemFault::NoMemory) => Err(EntryFault::NoMemory),
    }
}

// Reads the entry that the bytes begin with.
#[tactic(auto, unfolding(crate::specs::EntryReading::numbered_of))]
fn read_prefix(alloc: Global, reader: &mut Reader) -> Result<Entry, ItemFault>
    ensures found { IfOk result (λ entry. entry_item reader.old ≡ Ok (entry, reader.new)) }
    ensures malformed { result ≡ Err malformed → entry_item reader.old ≡ Err tt }
{
    let kind = u32::read(alloc, reader)?;
    read_fields(alloc, reader, kind)
}

// Reads the fields of the entry of this kind.
#[tactic(auto, unfolding(crate::specs::EntryReading::entry_fields, crate::specs::EntryReading::none_of, crate::specs::EntryReading::forgotten_of, crate::specs::EntryReading::cut_of))]
fn read_fields(alloc: Global, reader: &mut Reader, kind: u32) -> Result<Entry, ItemFault>
    ensures found { IfOk result (λ entry. entry_fields kind reader.old ≡ Ok (entry, reader.new)) }
    ensures malformed { result ≡ Err malformed → entry_fields kind reader.old ≡ Err tt }
{
    match kind {
        1 => read_single(alloc, reader),
        2 => read_prepared(alloc, reader),
        3 => read_refused(alloc, reader),
        4 => read_decided(alloc, reader),
        5 => Ok(Entry::Forgotten {
            id: TxId::read(alloc, reader)?,
        }),
        6 => Ok(Entry::Cut {
            cut: CutId::read(alloc, reader)?,
        }),
        7 => read_floor(alloc, reader),
        _ => Err(ItemFault::Malformed),
    }
}

#[tactic(auto, unfolding(crate::specs::EntryReading::single_of))]
fn read_single(alloc: Global, reader: &mut Reader) -> Result<Entry, ItemFault>
    ensures found { IfOk result (λ entry. single_of reader.old ≡ Ok (entry, reader.new)) }
    ensures malformed { result ≡ Err malformed → single_of reader.old ≡ Err tt }
{
    Ok(Entry::Single {
        id: TxId::read(alloc, reader)?,
        vote: read_granted(alloc, reader)?,
        writes: Counted::<WriteAt, LONGEST>::read(alloc, reader)?,
    })
}

#[tactic(auto, unfolding(crate::specs::EntryReading::prepared_of))]
fn read_prepared(alloc: Global, reader: &mut Reader) -> Result<Entry, ItemFault>
    ensures found { IfOk result (λ entry. prepared_of reader.old ≡ Ok (entry, reader.new)) }
    ensures malformed { result ≡ Err malformed → prepared_of reader.old ≡ Err tt }
{
    Ok(Entry::Prepared {
        id: TxId::read(alloc, reader)?,
        participants: read_participants(alloc, reader)?,
        vote: read_granted(alloc, reader)?,
        ranges: Counted::<Range, LONGEST>::read(alloc, reader)?,
        writes: Counted::<WriteAt, LONGEST>::read(alloc, reader)?,
    })
}

#[tactic(auto, unfolding(crate::specs::EntryReading::refused_of))]
fn read_refused(alloc: Global, reader: &mut Reader) -> Result<Entry, ItemFault>
    ensures found { IfOk result (λ entry. refused_of reader.old ≡ Ok (entry, reader.new)) }
    ensures malformed { result ≡ Err malformed → refused_of reader.old ≡ Err tt }
{
    Ok(Entry::Refused {
        id: TxId::read(alloc, reader)?,
        vote: read_refusal(alloc, reader)?,
    })
}

#[tactic(auto, unfolding(crate::specs::EntryReading::decided_of))]
fn read_decided(alloc: Global, reader: &mut Reader) -> Result<Entry, ItemFault>
    ensures found { IfOk result (λ entry. decided_of reader.old ≡ Ok (entry, reader.new)) }
    ensures malformed { result ≡ Err malformed → decided_of reader.old ≡ Err tt }
{
    Ok(Entry::Decided {
        id: TxId::read(alloc, reader)?,
        commit: bool::read(alloc, reader)?,
    })
}

#[tactic(auto, unfolding(crate::specs::EntryReading::floor_of))]
fn read_floor(alloc: Global, reader: &mut Reader) -> Result<Entry, ItemFault>
    ensures found { IfOk result (λ entry. floor_of reader.old ≡ Ok (entry, reader.new)) }
    ensures malformed { result ≡ Err malformed → floor_of reader.old ≡ Err tt }
{
    Ok(Entry::Floor {
        id: TxId::read(alloc, reader)?,
        vote: Vote::read(alloc, reader)?,
    })
}

// Reads a vote that is granted.
fn read_granted(alloc: Global, reader: &mut Reader) -> Result<Vote, ItemFault>
    ensures found { IfOk result (λ vote. granted_item reader.old ≡ Ok (vote, reader.new)) }
    ensures malformed { result ≡ Err malformed → granted_item reader.old ≡ Err tt }
{
    let vote = Vote::read(alloc, reader)?;
    if vote.is_granted() {
        Ok(vote)
    } else {
        Err(ItemFault::Malformed)
    }
}

// Reads a vote that is not.
fn read_refusal(alloc: Global, reader: &mut Reader) -> Result<Vote, ItemFault>
    ensures found { IfOk result (λ vote. refusal_item reader.old ≡ Ok (vote, reader.new)) }
    ensures malformed { result ≡ Err malformed → refusal_item reader.old ≡ Err tt }
{
    let vote = Vote::read(alloc, reader)?;
    if vote.is_granted() {
        Err(ItemFault::Malformed)
    } else {
        Ok(vote)
    }
}

// Reads two or more ascending numbers.
fn read_participants(alloc: Global, reader: &mut Reader) -> Result<Numbers, ItemFault>
    ensures found { IfOk result (λ numbers. participants_item reader.old ≡ Ok (numbers, reader.new)) }
    ensures malformed { result ≡ Err malformed → participants_item reader.old ≡ Err tt }
{
    let numbers = Counted::<u32, LONGEST>::read(alloc, reader)?;
    if is_participants(numbers.as_slice()) {
        Ok(numbers)
    } else {
        Err(ItemFault::Malformed)
    }
}

// Whether these are two or more numbers, each above the one before it.
fn is_participants(numbers: &[u32]) -> bool
    ensures { result ≡ are_participants numbers.now }
{
    let Some((first, others)) = numbers.split_first() else {
        return false;
    };
    !others.is_empty() && is_ascending_from(*first, others)
}

// Whether each number is above the one before it, and the first above `last`.
fn is_ascending_from(last: u32, numbers: &[u32]) -> bool
    ensures { result ≡ ascends_from last numbers.now }
{
    let mut previous = last;
    for number in numbers {
        if *number <= previous {
            return false;
        }
        previous = *number;
    }
    true
}
