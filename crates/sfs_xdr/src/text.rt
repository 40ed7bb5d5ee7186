ghost use Rattle.std.specs.Prelude.{◌≤◌, length};
ghost use Rattle.std.proofs.Common.{rules};
ghost use Rattle.sfs_xdr.specs.Items.{opaque_var};
ghost use Rattle.sfs_xdr.specs.Codec.{text_item, IsText};
ghost use Rattle.sfs_xdr.specs.CodecLemmas.{text_exact, text_written};

use crate::codec::Codec;
use crate::item_fault::ItemFault;
use crate::reader::Reader;
use crate::writer::Writer;
use sfs_base::{Bytes, NoMemory};
use std::alloc::Global;

/// At most `MAX` bytes behind their length (RFC 1014, sections 3.10 and 3.11), copied.
pub struct Text<const MAX: u32>;

impl<const MAX: u32> Codec for Text<MAX> {
    type Value = Bytes;

    ghost read_of = { text_item MAX };

    ghost spells = { IsText MAX };

    ghost typed = { λ bytes. Unit {0} };

    ghost fits = { λ bytes. length bytes ≤ MAX };

    ghost spelling = { opaque_var };

    #[tactic(auto, unfolding(crate::specs::Codec::plainly))]
    fn read(alloc: Global, reader: &mut Reader) -> Result<Bytes, ItemFault> {
        match reader.opaque_max(MAX) {
            Ok(bytes) => Ok(Bytes::from_slice(alloc, bytes)?),
            Err(_) => Err(ItemFault::Malformed),
        }
    }

    fn write(value: &Bytes, writer: &mut Writer) -> Result<(), NoMemory> {
        writer.opaque_var(value.as_slice())
    }

    ghost exact = { text_exact MAX (Prim.search rules) };

    ghost written = { λ bytes typed fits. text_written MAX bytes fits };
}
