ghost use Rattle.std.specs.Prelude.{◌≡◌, ◌<◌, ◌≤◌, ◌^◌, [], ◌∷◌, length, Ok, Err, IfOk};
ghost use Rattle.sfs_xdr.specs.Codec.{text_item};
ghost use Rattle.sfs_xdr.specs.declared.item_fault.ItemFault.TheVariants.{Malformed as malformed};
ghost use Rattle.sfs_xdr.specs.Items.{AreWords, words};
ghost use Rattle.rpc_msg.specs.Messages.{unix_of, unix_words, IsUnixBody};
ghost use Rattle.rpc_msg.specs.MessageLemmas.{unix_exact, unix_written};

use crate::cred::{Cred, MAX_GIDS};
use sfs_xdr::{Codec, Counted, ItemFault, NoMemory, Reader, Writer, write_words};
use std::alloc::Global;

/// The most bytes that the name of a caller's machine may have (RFC 1057, section 9.2).
const MAX_MACHINE_BYTES: u32 = 255;

/// The body of a credential of the flavor AUTH_UNIX (RFC 1057, section 9.2). Its stamp and the name of
/// the machine are not looked at, and are written as 0 and as no name.
pub struct UnixBody;

impl Codec for UnixBody {
    type Value = Cred;

    ghost read_of = { unix_of };

    ghost spells = { IsUnixBody };

    ghost typed = { λ cred. AreWords (cred.uid ∷ cred.gid ∷ cred.gids) };

    ghost fits = { λ cred. length cred.gids ≤ 16 };

    ghost spelling = { λ cred. words (unix_words cred) };

    #[tactic(auto, unfolding(crate::specs::Messages::unix_of))]
    fn read(alloc: Global, reader: &mut Reader) -> Result<Cred, ItemFault> {
        let _stamp = u32::read(alloc, reader)?;
        let _machine = read_machine(reader)?;
        let uid = u32::read(alloc, reader)?;
        let gid = u32::read(alloc, reader)?;
        let gids = Counted::<u32, MAX_GIDS>::read(alloc, reader)?;
        Ok(Cred { uid, gid, gids })
    }

    fn write(value: &Cred, writer: &mut Writer) -> Result<(), NoMemory> {
        let groups = value.gids.len() as u32;
        write_words(writer, &[0, 0, value.uid, value.gid, groups])?;
        write_words(writer, value.gids.as_slice())?;
        Ok(())
    }

    ghost exact = { unix_exact };

    ghost written = { unix_written };
}

// The name of a machine, where it stands.
#[tactic(auto, unfolding(sfs_xdr::specs::Codec::plainly))]
fn read_machine<'a>(reader: &mut Reader<'a>) -> Result<&'a [u8], ItemFault>
    ensures found { IfOk result (λ machine. text_item 255 reader.old ≡ Ok (machine.now, reader.new)) }
    ensures malformed { result ≡ Err malformed → text_item 255 reader.old ≡ Err tt }
{
    match reader.opaque_max(MAX_MACHINE_BYTES) {
        Ok(machine) => Ok(machine),
        Err(_) => Err(ItemFault::Malformed),
    }
}
