ghost use Rattle.std.specs.Prelude.{◌<◌, ◌≤◌, ◌^◌, length};
ghost use Rattle.mini_tx.specs.EntryGrammar.{longest, IsWrite, write_spelling};
ghost use Rattle.mini_tx.specs.EntryReading.{write_item};
ghost use Rattle.mini_tx.specs.EntryLemmas.{write_exact, write_written};

use crate::filled::Filled;
use crate::limits::LONGEST;
use sfs_base::{Bytes, NoMemory, Seq};
use sfs_xdr::{Codec, ItemFault, Reader, Writer};
use std::alloc::Global;

/// Writes to a memory node.
pub type Writes = Seq<WriteAt>;

/// Bytes that are written to a memory node, from the address `at` on.
#[derive(Debug, Clone, PartialEq, Eq, Drop)]
pub struct WriteAt {
    pub at: u32,
    pub bytes: Bytes,
}

impl Codec for WriteAt {
    type Value = WriteAt;

    ghost read_of = { write_item };

    ghost spells = { IsWrite };

    ghost typed = { λ w. w.at < 2 ^ 32 };

    ghost fits = { λ w. length w.bytes ≤ longest };

    ghost spelling = { write_spelling };

    #[tactic(auto, unfolding(crate::specs::EntryReading::write_item))]
    fn read(alloc: Global, reader: &mut Reader) -> Result<WriteAt, ItemFault> {
        Ok(WriteAt {
            at: u32::read(alloc, reader)?,
            bytes: Filled::<LONGEST>::read(alloc, reader)?,
        })
    }

    fn write(value: &WriteAt, writer: &mut Writer) -> Result<(), NoMemory> {
        writer.u32(value.at)?;
        Filled::<LONGEST>::write(&value.bytes, writer)
    }

    ghost exact = { write_exact };

    ghost written = { write_written };
}
