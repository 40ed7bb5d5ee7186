ghost use Rattle.std.specs.Prelude.{◌≡◌, length, Ok, Err, IfOk};
ghost use Rattle.sfs_xdr.specs.Codec.{fixed_item};
ghost use Rattle.sfs_xdr.specs.declared.item_fault.ItemFault.TheVariants.{Malformed as malformed};
ghost use Rattle.sfs_xdr.specs.Items.{opaque};
ghost use Rattle.nfs_proto.specs.Types.{handle_item, IsHandle};
ghost use Rattle.nfs_proto.specs.TypeLemmas.{handle_exact, handle_written};

use sfs_base::NoMemory;
use sfs_xdr::{Codec, ItemFault, Reader, Writer};
use std::alloc::Global;

/// How many bytes a handle has (RFC 1094, section 2.3.3).
const HANDLE_BYTES: usize = 32;

/// What a client names a file by (RFC 1094, section 2.3.3). What its bytes say is the server's own.
#[derive(Clone, Copy, Debug, PartialEq, Eq)]
pub struct Handle(pub [u8; HANDLE_BYTES]);

impl Codec for Handle {
    type Value = Handle;

    ghost read_of = { handle_item };

    ghost spells = { IsHandle };

    ghost typed = { λ h. length h.0 ≡ 32 };

    ghost fits = { λ h. Unit {0} };

    ghost spelling = { λ h. opaque h.0 };

    fn read(_alloc: Global, reader: &mut Reader) -> Result<Handle, ItemFault> {
        Ok(Handle(read_bytes(reader)?))
    }

    fn write(value: &Handle, writer: &mut Writer) -> Result<(), NoMemory> {
        writer.opaque(&value.0)
    }

    ghost exact = { handle_exact };

    ghost written = { handle_written };
}

// The bytes of a handle.
#[tactic(auto, unfolding(sfs_xdr::specs::Codec::plainly, sfs_xdr::specs::Reading::opaque_of))]
fn read_bytes(reader: &mut Reader) -> Result<[u8; HANDLE_BYTES], ItemFault>
    ensures found { IfOk result (λ bytes. fixed_item 32 reader.old ≡ Ok (bytes, reader.new)) }
    ensures malformed { result ≡ Err malformed → fixed_item 32 reader.old ≡ Err tt }
{
    match reader.opaque(HANDLE_BYTES) {
        Ok(bytes) => {
            let mut handle = [0; HANDLE_BYTES];
            handle.copy_from_slice(bytes);
            Ok(handle)
        }
        Err(_) => Err(ItemFault::Malformed),
    }
}
