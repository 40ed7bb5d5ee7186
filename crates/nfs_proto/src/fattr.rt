ghost use Rattle.sfs_xdr.specs.Items.{AreWords, words};
ghost use Rattle.nfs_proto.specs.Types.{fattr_item, fattr_words, IsFattr};
ghost use Rattle.nfs_proto.specs.TypeLemmas.{fattr_exact, fattr_written};

use crate::stamp::Stamp;
use sfs_base::NoMemory;
use sfs_xdr::{Codec, ItemFault, Reader, Writer, write_words};
use std::alloc::Global;

/// What a client is told of a file (RFC 1094, section 2.3.5).
#[derive(Clone, Copy, Debug, PartialEq, Eq)]
pub struct Fattr {
    pub kind: u32,
    pub mode: u32,
    pub links: u32,
    pub uid: u32,
    pub gid: u32,
    pub size: u32,
    pub block_size: u32,
    pub rdev: u32,
    pub blocks: u32,
    pub fsid: u32,
    pub fileid: u32,
    pub atime: Stamp,
    pub mtime: Stamp,
    pub ctime: Stamp,
}

impl Codec for Fattr {
    type Value = Fattr;

    ghost read_of = { fattr_item };

    ghost spells = { IsFattr };

    ghost typed = { λ a. AreWords (fattr_words a) };

    ghost fits = { λ a. Unit {0} };

    ghost spelling = { λ a. words (fattr_words a) };

    #[tactic(auto, unfolding(crate::specs::Types::fattr_item))]
    fn read(alloc: Global, reader: &mut Reader) -> Result<Fattr, ItemFault> {
        Ok(Fattr {
            kind: u32::read(alloc, reader)?,
            mode: u32::read(alloc, reader)?,
            links: u32::read(alloc, reader)?,
            uid: u32::read(alloc, reader)?,
            gid: u32::read(alloc, reader)?,
            size: u32::read(alloc, reader)?,
            block_size: u32::read(alloc, reader)?,
            rdev: u32::read(alloc, reader)?,
            blocks: u32::read(alloc, reader)?,
            fsid: u32::read(alloc, reader)?,
            fileid: u32::read(alloc, reader)?,
            atime: Stamp::read(alloc, reader)?,
            mtime: Stamp::read(alloc, reader)?,
            ctime: Stamp::read(alloc, reader)?,
        })
    }

    fn write(value: &Fattr, writer: &mut Writer) -> Result<(), NoMemory> {
        write_words(
            writer,
            &[
                value.kind,
                value.mode,
                value.links,
                value.uid,
                value.gid,
                value.size,
                value.block_size,
                value.rdev,
                value.blocks,
                value.fsid,
                value.fileid,
                value.atime.sec,
                value.atime.usec,
                value.mtime.sec,
                value.mtime.usec,
                value.ctime.sec,
                value.ctime.usec,
            ],
        )
    }

    ghost exact = { fattr_exact };

    ghost written = { fattr_written };
}
