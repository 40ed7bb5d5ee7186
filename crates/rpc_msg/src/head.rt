ghost use Rattle.std.specs.Prelude.{◌<◌, ◌^◌};
ghost use Rattle.sfs_xdr.specs.Items.{AreWords, words};
ghost use Rattle.rpc_msg.specs.Messages.{head_words, head_of, IsHead};
ghost use Rattle.rpc_msg.specs.MessageLemmas.{head_exact, head_written};

use sfs_xdr::{Codec, ItemFault, NoMemory, Reader, Writer, write_words};
use std::alloc::Global;

/// A call has this kind, and a reply another (RFC 1057, section 8).
pub(crate) const CALL: u32 = 0;

/// The version of RPC (RFC 1057, section 8).
pub(crate) const RPC_VERSION: u32 = 2;

/// The numbers with which a call begins (RFC 1057, section 8).
#[derive(Clone, Copy, Debug, PartialEq, Eq)]
pub struct Head {
    /// The number under which the reply comes back.
    pub xid: u32,
    /// Whether it is a call or a reply.
    pub kind: u32,
    /// The version of RPC.
    pub rpc_version: u32,
    /// The program that is called.
    pub program: u32,
    /// The version of that program.
    pub version: u32,
    /// The procedure of that version.
    pub procedure: u32,
}

impl Codec for Head {
    type Value = Head;

    ghost read_of = { head_of };

    ghost spells = { IsHead };

    ghost typed = { λ h. AreWords (head_words h) };

    ghost fits = { λ h. Unit {0} };

    ghost spelling = { λ h. words (head_words h) };

    #[tactic(auto, unfolding(crate::specs::Messages::head_of))]
    fn read(alloc: Global, reader: &mut Reader) -> Result<Head, ItemFault> {
        Ok(Head {
            xid: u32::read(alloc, reader)?,
            kind: u32::read(alloc, reader)?,
            rpc_version: u32::read(alloc, reader)?,
            program: u32::read(alloc, reader)?,
            version: u32::read(alloc, reader)?,
            procedure: u32::read(alloc, reader)?,
        })
    }

    fn write(value: &Head, writer: &mut Writer) -> Result<(), NoMemory> {
        write_words(
            writer,
            &[
                value.xid,
                value.kind,
                value.rpc_version,
                value.program,
                value.version,
                value.procedure,
            ],
        )
    }

    ghost exact = { head_exact };

    ghost written = { head_written };
}
