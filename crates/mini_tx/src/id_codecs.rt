ghost use Rattle.std.specs.Prelude.{◌<◌, ◌^◌};
ghost use Rattle.mini_tx.specs.EntryGrammar.{IsId, IsCut, id_spelling, cut_spelling};
ghost use Rattle.mini_tx.specs.EntryReading.{id_item, cut_item};
ghost use Rattle.mini_tx.specs.EntryLemmas.{id_exact, id_written, cut_exact, cut_written};

use crate::cut_id::CutId;
use crate::hyper::Hyper;
use crate::tx_id::TxId;
use sfs_base::NoMemory;
use sfs_xdr::{Codec, ItemFault, Reader, Writer};
use std::alloc::Global;

/// Coordinator, boot number, number within it.
impl Codec for TxId {
    type Value = TxId;

    ghost read_of = { id_item };

    ghost spells = { IsId };

    ghost typed = { λ t. (t.coord < 2 ^ 32) × (t.boot < 2 ^ 64) × (t.seq < 2 ^ 64) };

    ghost fits = { λ t. Unit {0} };

    ghost spelling = { id_spelling };

    #[tactic(auto, unfolding(crate::specs::EntryReading::id_item))]
    fn read(alloc: Global, reader: &mut Reader) -> Result<TxId, ItemFault> {
        Ok(TxId {
            coord: u32::read(alloc, reader)?,
            boot: Hyper::read(alloc, reader)?,
            seq: Hyper::read(alloc, reader)?,
        })
    }

    fn write(value: &TxId, writer: &mut Writer) -> Result<(), NoMemory> {
        writer.u32(value.coord)?;
        Hyper::write(&value.boot, writer)?;
        Hyper::write(&value.seq, writer)
    }

    ghost exact = { id_exact };

    ghost written = { λ t typed fits. id_written t typed };
}

/// Boot number, number within it.
impl Codec for CutId {
    type Value = CutId;

    ghost read_of = { cut_item };

    ghost spells = { IsCut };

    ghost typed = { λ c. (c.boot < 2 ^ 64) × (c.seq < 2 ^ 64) };

    ghost fits = { λ c. Unit {0} };

    ghost spelling = { cut_spelling };

    #[tactic(auto, unfolding(crate::specs::EntryReading::cut_item))]
    fn read(alloc: Global, reader: &mut Reader) -> Result<CutId, ItemFault> {
        Ok(CutId {
            boot: Hyper::read(alloc, reader)?,
            seq: Hyper::read(alloc, reader)?,
        })
    }

    fn write(value: &CutId, writer: &mut Writer) -> Result<(), NoMemory> {
        Hyper::write(&value.boot, writer)?;
        Hyper::write(&value.seq, writer)
    }

    ghost exact = { cut_exact };

    ghost written = { λ c typed fits. cut_written c typed };
}
