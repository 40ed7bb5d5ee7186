ghost use Rattle.std.specs.Prelude.{◌<◌, ◌^◌};
ghost use Rattle.mini_tx.specs.EntryGrammar.{IsRange, range_spelling};
ghost use Rattle.mini_tx.specs.EntryReading.{range_item};
ghost use Rattle.mini_tx.specs.EntryLemmas.{range_exact, range_written};

use sfs_base::{NoMemory, Seq};
use sfs_xdr::{Codec, ItemFault, Reader, Writer};
use std::alloc::Global;

/// Ranges of a memory node.
pub type Ranges = Seq<Range>;

/// `length` bytes of a memory node, from the address `at` on.
#[derive(Clone, Copy, Debug, PartialEq, Eq)]
pub struct Range {
    pub at: u32,
    pub length: u32,
}

impl Codec for Range {
    type Value = Range;

    ghost read_of = { range_item };

    ghost spells = { IsRange };

    ghost typed = { λ r. (r.at < 2 ^ 32) × (r.length < 2 ^ 32) };

    ghost fits = { λ r. Unit {0} };

    ghost spelling = { range_spelling };

    #[tactic(auto, unfolding(crate::specs::EntryReading::range_item))]
    fn read(alloc: Global, reader: &mut Reader) -> Result<Range, ItemFault> {
        Ok(Range {
            at: u32::read(alloc, reader)?,
            length: u32::read(alloc, reader)?,
        })
    }

    fn write(value: &Range, writer: &mut Writer) -> Result<(), NoMemory> {
        writer.u32(value.at)?;
        writer.u32(value.length)
    }

    ghost exact = { range_exact };

    ghost written = { λ r typed fits. range_written r typed };
}
