ghost use Rattle.std.specs.Prelude.{◌<◌, ◌≤◌, ◌^◌, ◌++◌, length};
ghost use Rattle.sfs_xdr.specs.Items.{word, opaque_var};
ghost use Rattle.nfs_proto.specs.Answers.{entry_item, IsEntry};
ghost use Rattle.nfs_proto.specs.AnswerLemmas.{entry_exact, entry_written};

use crate::limits::MAX_NAME_BYTES;
use sfs_base::{Bytes, NoMemory, Seq};
use sfs_xdr::{Codec, ItemFault, Reader, Text, Writer};
use std::alloc::Global;

/// Names of a directory, in order.
pub type DirEntries = Seq<DirEntry>;

/// A name of a directory: the number of its file, the name, and the cookie behind which the next one
/// stands (RFC 1094, section 2.2.17).
#[derive(Debug, PartialEq, Eq, Drop)]
pub struct DirEntry {
    pub fileid: u32,
    pub name: Bytes,
    pub cookie: u32,
}

impl Codec for DirEntry {
    type Value = DirEntry;

    ghost read_of = { entry_item };

    ghost spells = { IsEntry };

    ghost typed = { λ e. (e.fileid < 2 ^ 32) × (e.cookie < 2 ^ 32) };

    ghost fits = { λ e. length e.name ≤ 1024 };

    ghost spelling = { λ e. word e.fileid ++ (opaque_var e.name ++ word e.cookie) };

    #[tactic(auto, unfolding(crate::specs::Answers::entry_item))]
    fn read(alloc: Global, reader: &mut Reader) -> Result<DirEntry, ItemFault> {
        Ok(DirEntry {
            fileid: u32::read(alloc, reader)?,
            name: Text::<MAX_NAME_BYTES>::read(alloc, reader)?,
            cookie: u32::read(alloc, reader)?,
        })
    }

    fn write(value: &DirEntry, writer: &mut Writer) -> Result<(), NoMemory> {
        writer.u32(value.fileid)?;
        Text::<MAX_NAME_BYTES>::write(&value.name, writer)?;
        writer.u32(value.cookie)
    }

    ghost exact = { entry_exact };

    ghost written = { entry_written };
}
