ghost use Rattle.sfs_xdr.specs.Items.{AreWords, words};
ghost use Rattle.nfs_proto.specs.Types.{stamp_item, stamp_words, IsStamp};
ghost use Rattle.nfs_proto.specs.TypeLemmas.{stamp_exact, stamp_written};

use sfs_base::NoMemory;
use sfs_xdr::{Codec, ItemFault, Reader, Writer, write_words};
use std::alloc::Global;

/// A moment: seconds and microseconds (RFC 1094, section 2.3.4).
#[derive(Clone, Copy, Debug, PartialEq, Eq)]
pub struct Stamp {
    pub sec: u32,
    pub usec: u32,
}

impl Stamp {
    /// The moment at which all times of a fresh tree stand.
    pub const ZERO: Stamp = Stamp { sec: 0, usec: 0 };
}

impl Codec for Stamp {
    type Value = Stamp;

    ghost read_of = { stamp_item };

    ghost spells = { IsStamp };

    ghost typed = { λ t. AreWords (stamp_words t) };

    ghost fits = { λ t. Unit {0} };

    ghost spelling = { λ t. words (stamp_words t) };

    #[tactic(auto, unfolding(crate::specs::Types::stamp_item))]
    fn read(alloc: Global, reader: &mut Reader) -> Result<Stamp, ItemFault> {
        Ok(Stamp {
            sec: u32::read(alloc, reader)?,
            usec: u32::read(alloc, reader)?,
        })
    }

    fn write(value: &Stamp, writer: &mut Writer) -> Result<(), NoMemory> {
        write_words(writer, &[value.sec, value.usec])
    }

    ghost exact = { stamp_exact };

    ghost written = { stamp_written };
}
