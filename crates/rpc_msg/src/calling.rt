ghost use Rattle.std.specs.Prelude.{◌≡◌, ◌≤◌, ◌++◌, length, IfOk, OnOk};
ghost use Rattle.sfs_xdr.specs.Items.{words};
ghost use Rattle.rpc_msg.specs.Messages.{cred_words, head_for, program_of, call_spelling, MayCall};

use crate::auth::{AUTH_NULL, AUTH_UNIX};
use crate::cred::{Cred, NOBODY};
use crate::head::{CALL, Head, RPC_VERSION};
use crate::program::Program;
use crate::rpc_call::RpcCall;
use crate::unix_body::UnixBody;
use sfs_base::NoMemory;
use sfs_xdr::{Codec, Writer, write_words};
use std::alloc::Global;

/// How many bytes of the body of AUTH_UNIX stand before the further groups where no machine is named.
const UNIX_BYTES: u32 = 20;

/// The most bytes of a call before its arguments: six words, AUTH_UNIX with 16 further groups, and a verifier of
/// nothing.
const MAX_HEAD_BYTES: usize = 124;

/// A call, as a client sends it (RFC 1057, section 8): without a credential where nobody calls, else with
/// AUTH_UNIX of stamp 0 that names no machine, and with a verifier of nothing. The program and the
/// procedure have to be there, and the further groups be at most 16.
pub fn write_call(alloc: Global, call: &RpcCall) -> Result<Vec<u8>, NoMemory>
    requires { MayCall (program_of call.now.program) call.now }
    ensures { IfOk result (λ bytes. bytes.items ≡ call_spelling call.now) }
{
    let room = call.args.len().saturating_add(MAX_HEAD_BYTES);
    let mut writer = Writer::with_room(alloc, room)?;
    Head::write(&head_of(call), &mut writer)?;
    write_cred(&mut writer, &call.cred)?;
    write_words(&mut writer, &[AUTH_NULL, 0])?;
    let mut bytes = writer.finish();
    bytes.extend_from_slice(call.args.as_slice())?;
    Ok(bytes)
}

// The numbers with which the call begins.
fn head_of(call: &RpcCall) -> Head
    requires { MayCall (program_of call.now.program) call.now }
    ensures { result ≡ head_for (program_of call.now.program) call.now }
{
    let version = match Program::of(call.program) {
        Some(program) => program.version,
        None => 0,
    };
    Head {
        xid: call.xid,
        kind: CALL,
        rpc_version: RPC_VERSION,
        program: call.program,
        version,
        procedure: call.procedure,
    }
}

// Who calls.
fn write_cred(writer: &mut Writer, cred: &Cred) -> Result<(), NoMemory>
    requires { length cred.now.gids ≤ 16 }
    ensures { OnOk result (writer.new ≡ writer.old ++ words (cred_words cred.now)) }
{
    if cred.is_nobody() {
        return write_words(writer, &[AUTH_NULL, 0]);
    }
    let length = UNIX_BYTES + 4 * cred.gids.len() as u32;
    write_words(writer, &[AUTH_UNIX, length])?;
    UnixBody::write(cred, writer)?;
    Ok(())
}
