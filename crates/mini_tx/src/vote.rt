ghost use Rattle.std.specs.Prelude.{◌≡◌, ◌++◌, Ok, Err, IfOk, OnOk};
ghost use Rattle.sfs_xdr.specs.Items.{word, opaque_var};
ghost use Rattle.sfs_xdr.specs.declared.item_fault.ItemFault.TheVariants.{Malformed as malformed};
ghost use Rattle.mini_tx.specs.EntryGrammar.{IsVote, FitsBytes, FitsVote, vote_spelling, is_granted};
ghost use Rattle.mini_tx.specs.EntryReading.{vote_item, vote_fields, mismatch_of};
ghost use Rattle.mini_tx.specs.Laws.{IsTypedVote};
ghost use Rattle.mini_tx.specs.VoteLemmas.{vote_exact, vote_written};

use crate::cut_id::CutId;
use crate::filled::Filled;
use crate::limits::LONGEST;
use crate::tx_id::TxId;
use sfs_base::{Bytes, NoMemory, Seq};
use sfs_xdr::{Codec, Counted, ItemFault, Reader, Writer};
use std::alloc::Global;

type Reading = Counted<Filled<LONGEST>, LONGEST>;

/// The bytes of read items, in the items' order.
pub type Reads = Seq<Bytes>;

/// What a memory node answers a minitransaction.
#[derive(Debug, Clone, PartialEq, Eq, Drop)]
pub enum Vote {
    /// It may be performed; the bytes of this memory node's read items, as they are before its writes.
    Granted(Reads),
    /// A compare item differs: its place in the minitransaction, and the bytes that stand there.
    Mismatch { item: u32, kept: Bytes },
    /// A range is locked: the least minitransaction that holds one.
    Locked { holder: TxId },
    /// It may no longer be performed: the greatest identifier of its coordinator that was voted on.
    Forced { floor: TxId },
    /// A cut is held.
    Held { cut: CutId },
}

impl Vote {
    /// Whether this is [`Vote::Granted`].
    pub fn is_granted(&self) -> bool
        ensures { result ≡ is_granted self.now }
    {
        matches!(self, Vote::Granted(_))
    }
}

impl Codec for Vote {
    type Value = Vote;

    ghost read_of = { vote_item };

    ghost spells = { IsVote };

    ghost typed = { IsTypedVote };

    ghost fits = { FitsVote };

    ghost spelling = { vote_spelling };

    #[tactic(auto, unfolding(crate::specs::EntryReading::numbered_of))]
    fn read(alloc: Global, reader: &mut Reader) -> Result<Vote, ItemFault> {
        let number = u32::read(alloc, reader)?;
        read_fields(alloc, reader, number)
    }

    fn write(value: &Vote, writer: &mut Writer) -> Result<(), NoMemory> {
        match value {
            Vote::Granted(reads) => {
                writer.u32(0)?;
                Reading::write(reads, writer)
            }
            Vote::Mismatch { item, kept } => {
                writer.u32(1)?;
                write_mismatch(*item, kept, writer)
            }
            Vote::Locked { holder } => {
                writer.u32(2)?;
                TxId::write(holder, writer)
            }
            Vote::Forced { floor } => {
                writer.u32(3)?;
                TxId::write(floor, writer)
            }
            Vote::Held { cut } => {
                writer.u32(4)?;
                CutId::write(cut, writer)
            }
        }
    }

    ghost exact = { vote_exact };

    ghost written = { vote_written };
}

// Writes the fields of a mismatch.
fn write_mismatch(item: u32, kept: &Bytes, writer: &mut Writer) -> Result<(), NoMemory>
    requires { FitsBytes kept.now }
    ensures { OnOk result (writer.new ≡ writer.old ++ (word item ++ opaque_var kept.now)) }
{
    writer.u32(item)?;
    Filled::<LONGEST>::write(kept, writer)
}

// Reads the fields of the vote with this number.
#[tactic(auto, unfolding(crate::specs::EntryReading::vote_fields, crate::specs::EntryReading::granted_of, crate::specs::EntryReading::locked_of, crate::specs::EntryReading::forced_of, crate::specs::EntryReading::held_of))]
fn read_fields(alloc: Global, reader: &mut Reader, number: u32) -> Result<Vote, ItemFault>
    ensures found { IfOk result (λ vote. vote_fields number reader.old ≡ Ok (vote, reader.new)) }
    ensures malformed { result ≡ Err malformed → vote_fields number reader.old ≡ Err tt }
{
    match number {
        0 => Ok(Vote::Granted(Reading::read(alloc, reader)?)),
        1 => read_mismatch(alloc, reader),
        2 => Ok(Vote::Locked {
            holder: TxId::read(alloc, reader)?,
        }),
        3 => Ok(Vote::Forced {
            floor: TxId::read(alloc, reader)?,
        }),
        4 => Ok(Vote::Held {
            cut: CutId::read(alloc, reader)?,
        }),
        _ => Err(ItemFault::Malformed),
    }
}

#[tactic(auto, unfolding(crate::specs::EntryReading::mismatch_of))]
fn read_mismatch(alloc: Global, reader: &mut Reader) -> Result<Vote, ItemFault>
    ensures found { IfOk result (λ vote. mismatch_of reader.old ≡ Ok (vote, reader.new)) }
    ensures malformed { result ≡ Err malformed → mismatch_of reader.old ≡ Err tt }
{
    Ok(Vote::Mismatch {
        item: u32::read(alloc, reader)?,
        kept: Filled::<LONGEST>::read(alloc, reader)?,
    })
}
