ghost use Rattle.std.specs.Prelude.{◌≡◌, ◌++◌, IfOk, OnOk};
ghost use Rattle.sfs_xdr.specs.Items.{word, boolean};
ghost use Rattle.mini_tx.specs.EntryGrammar.{FitsVote, FitsList, FitsNumber, FitsRange, FitsWrite, FitsEntry, id_spelling, vote_spelling, range_spelling, write_spelling, counted_spelling, entry_spelling};

use crate::Numbers;
use crate::cut_id::CutId;
use crate::entry::Entry;
use crate::entry_room::room_for;
use crate::limits::LONGEST;
use crate::range::{Range, Ranges};
use crate::tx_id::TxId;
use crate::vote::Vote;
use crate::write_at::{WriteAt, Writes};
use sfs_base::NoMemory;
use sfs_xdr::{Codec, Counted, Writer};
use std::alloc::Global;

/// An entry, spelled (`docs/FORMATS.md`, "Entries of a log"). The entry has a spelling: the vote of a
/// single and of a prepared one is granted, that of a refused one is not, two or more participants
/// ascend, and each list and each run of bytes is shorter than 2^32.
pub fn write_entry(alloc: Global, entry: &Entry) -> Result<Vec<u8>, NoMemory>
    requires { FitsEntry entry.now }
    ensures { IfOk result (λ bytes. bytes.items ≡ entry_spelling entry.now) }
{
    let mut writer = Writer::with_room(alloc, room_for(entry))?;
    write(entry, &mut writer)?;
    Ok(writer.finish())
}

// Writes an entry.
fn write(entry: &Entry, writer: &mut Writer) -> Result<(), NoMemory>
    requires { FitsEntry entry.now }
    ensures { OnOk result (writer.new ≡ writer.old ++ entry_spelling entry.now) }
{
    match entry {
        Entry::Single { id, vote, writes } => {
            writer.u32(1)?;
            write_single(id, vote, writes, writer)
        }
        Entry::Prepared {
            id,
            participants,
            vote,
            ranges,
            writes,
        } => {
            writer.u32(2)?;
            write_numbers(id, participants, writer)?;
            write_granted(vote, ranges, writes, writer)
        }
        Entry::Refused { id, vote } => {
            writer.u32(3)?;
            write_voted(id, vote, writer)
        }
        Entry::Decided { id, commit } => {
            writer.u32(4)?;
            write_decided(id, *commit, writer)
        }
        Entry::Forgotten { id } => {
            writer.u32(5)?;
            TxId::write(id, writer)
        }
        Entry::Cut { cut } => {
            writer.u32(6)?;
            CutId::write(cut, writer)
        }
        Entry::Floor { id, vote } => {
            writer.u32(7)?;
            write_voted(id, vote, writer)
        }
    }
}

fn write_single(
    id: &TxId,
    vote: &Vote,
    writes: &Writes,
    writer: &mut Writer,
) -> Result<(), NoMemory>
    requires { FitsVote vote.now × FitsList FitsWrite writes.now }
    ensures { OnOk result (writer.new ≡ writer.old ++ (id_spelling id.now ++ (vote_spelling vote.now ++ counted_spelling write_spelling writes.now))) }
{
    TxId::write(id, writer)?;
    Vote::write(vote, writer)?;
    Counted::<WriteAt, LONGEST>::write(writes, writer)
}

fn write_numbers(id: &TxId, participants: &Numbers, writer: &mut Writer) -> Result<(), NoMemory>
    requires { FitsList FitsNumber participants.now }
    ensures { OnOk result (writer.new ≡ writer.old ++ (id_spelling id.now ++ counted_spelling word participants.now)) }
{
    TxId::write(id, writer)?;
    Counted::<u32, LONGEST>::write(participants, writer)
}

fn write_granted(
    vote: &Vote,
    ranges: &Ranges,
    writes: &Writes,
    writer: &mut Writer,
) -> Result<(), NoMemory>
    requires { FitsVote vote.now × FitsList FitsRange ranges.now × FitsList FitsWrite writes.now }
    ensures { OnOk result (writer.new ≡ writer.old ++ (vote_spelling vote.now ++ (counted_spelling range_spelling ranges.now ++ counted_spelling write_spelling writes.now))) }
{
    Vote::write(vote, writer)?;
    Counted::<Range, LONGEST>::write(ranges, writer)?;
    Counted::<WriteAt, LONGEST>::write(writes, writer)
}

fn write_voted(id: &TxId, vote: &Vote, writer: &mut Writer) -> Result<(), NoMemory>
    requires { FitsVote vote.now }
    ensures { OnOk result (writer.new ≡ writer.old ++ (id_spelling id.now ++ vote_spelling vote.now)) }
{
    TxId::write(id, writer)?;
    Vote::write(vote, writer)
}

fn write_decided(id: &TxId, commit: bool, writer: &mut Writer) -> Result<(), NoMemory>
    ensures { OnOk result (writer.new ≡ writer.old ++ (id_spelling id.now ++ boolean commit)) }
{
    TxId::write(id, writer)?;
    writer.boolean(commit)
}
