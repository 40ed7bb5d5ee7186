ghost use Rattle.sfs_xdr.specs.Items.{AreWords, words};
ghost use Rattle.nfs_proto.specs.Types.{sattr_item, sattr_words, IsSattr};
ghost use Rattle.nfs_proto.specs.TypeLemmas.{sattr_exact, sattr_written};

use crate::stamp::Stamp;
use sfs_base::NoMemory;
use sfs_xdr::{Codec, ItemFault, Reader, Writer, write_words};
use std::alloc::Global;

/// What a client sets of a file (RFC 1094, section 2.3.6). A number of all ones is not set, nor is a
/// moment both of whose numbers are.
#[derive(Clone, Copy, Debug, PartialEq, Eq)]
pub struct Sattr {
    pub mode: u32,
    pub uid: u32,
    pub gid: u32,
    pub size: u32,
    pub atime: Stamp,
    pub mtime: Stamp,
}

impl Codec for Sattr {
    type Value = Sattr;

    ghost read_of = { sattr_item };

    ghost spells = { IsSattr };

    ghost typed = { λ a. AreWords (sattr_words a) };

    ghost fits = { λ a. Unit {0} };

    ghost spelling = { λ a. words (sattr_words a) };

    #[tactic(auto, unfolding(crate::specs::Types::sattr_item))]
    fn read(alloc: Global, reader: &mut Reader) -> Result<Sattr, ItemFault> {
        Ok(Sattr {
            mode: u32::read(alloc, reader)?,
            uid: u32::read(alloc, reader)?,
            gid: u32::read(alloc, reader)?,
            size: u32::read(alloc, reader)?,
            atime: Stamp::read(alloc, reader)?,
            mtime: Stamp::read(alloc, reader)?,
        })
    }

    fn write(value: &Sattr, writer: &mut Writer) -> Result<(), NoMemory> {
        write_words(
            writer,
            &[
                value.mode,
                value.uid,
                value.gid,
                value.size,
                value.atime.sec,
                value.atime.usec,
                value.mtime.sec,
                value.mtime.usec,
            ],
        )
    }

    ghost exact = { sattr_exact };

    ghost written = { sattr_written };
}
