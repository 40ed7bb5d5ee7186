ghost use Rattle.std.specs.Prelude.{◌≡◌, IfOk};
ghost use Rattle.sfs_xdr.specs.Items.{words};
ghost use Rattle.rpc_msg.specs.Messages.{accepted, accepted_as, program_mismatch, garbage_arguments, rpc_mismatch, auth_error};
ghost use Rattle.rpc_msg.specs.Hearing.{why_number};

use crate::auth::AUTH_NULL;
use crate::auth_why::AuthWhy;
use sfs_base::{Bytes, NoMemory};
use sfs_xdr::{Writer, write_words};
use std::alloc::Global;

// The words of a reply (RFC 1057, section 8).
const REPLY: u32 = 1;

const MSG_ACCEPTED: u32 = 0;

const MSG_DENIED: u32 = 1;

// Why a message was denied (RFC 1057, section 8).
const RPC_MISMATCH: u32 = 0;

const AUTH_ERROR: u32 = 1;

// How an accepted call went (RFC 1057, section 8).
const SUCCESS: u32 = 0;

/// The program is not answered.
pub(crate) const PROG_UNAVAIL: u32 = 1;

const PROG_MISMATCH: u32 = 2;

/// The procedure is not there.
pub(crate) const PROC_UNAVAIL: u32 = 3;

const GARBAGE_ARGS: u32 = 4;

/// The reply to the call with this xid that succeeded: `body` is what the procedure gives, as XDR spells
/// it (RFC 1057, section 8).
pub fn write_reply(alloc: Global, xid: u32, body: &[u8]) -> Result<Vec<u8>, NoMemory>
    ensures { IfOk result (λ reply. reply.items ≡ accepted xid body.now) }
{
    let mut reply = write_accepted(alloc, xid, SUCCESS)?;
    reply.extend_from_slice(body)?;
    Ok(reply)
}

/// The reply to a call with this xid whose arguments are out of form (RFC 1057, section 8, GARBAGE_ARGS).
pub fn write_garbage(alloc: Global, xid: u32) -> Result<Vec<u8>, NoMemory>
    ensures { IfOk result (λ reply. reply.items ≡ garbage_arguments xid) }
{
    write_accepted(alloc, xid, GARBAGE_ARGS)
}

// A reply that the call was accepted, and how it went.
fn write_accepted(alloc: Global, xid: u32, status: u32) -> Result<Vec<u8>, NoMemory>
    ensures { IfOk result (λ reply. reply.items ≡ accepted_as status xid) }
{
    message(alloc, &[xid, REPLY, MSG_ACCEPTED, AUTH_NULL, 0, status])
}

/// The reply that the call with this xid was accepted and went as `status` says, with nothing behind it.
pub(crate) fn refuse_call(alloc: Global, xid: u32, status: u32) -> Result<Bytes, NoMemory>
    ensures { IfOk result (λ reply. reply ≡ accepted_as status xid) }
{
    Ok(Bytes::from(write_accepted(alloc, xid, status)?))
}

/// The reply to a call of another version of the program than `version`.
pub(crate) fn refuse_version(alloc: Global, xid: u32, version: u32) -> Result<Bytes, NoMemory>
    ensures { IfOk result (λ reply. reply ≡ program_mismatch version xid) }
{
    let reply = message(
        alloc,
        &[
            xid,
            REPLY,
            MSG_ACCEPTED,
            AUTH_NULL,
            0,
            PROG_MISMATCH,
            version,
            version,
        ],
    )?;
    Ok(Bytes::from(reply))
}

/// The reply to a call of another version of RPC than `version`.
pub(crate) fn refuse_rpc(alloc: Global, xid: u32, version: u32) -> Result<Bytes, NoMemory>
    ensures { version ≡ 2 → IfOk result (λ reply. reply ≡ rpc_mismatch xid) }
{
    let reply = message(
        alloc,
        &[xid, REPLY, MSG_DENIED, RPC_MISMATCH, version, version],
    )?;
    Ok(Bytes::from(reply))
}

/// The reply to a caller that is not let in.
pub(crate) fn refuse_caller(alloc: Global, xid: u32, why: AuthWhy) -> Result<Bytes, NoMemory>
    ensures { IfOk result (λ reply. reply ≡ auth_error (why_number why) xid) }
{
    let reply = message(alloc, &[xid, REPLY, MSG_DENIED, AUTH_ERROR, why.number()])?;
    Ok(Bytes::from(reply))
}

// A message of these numbers, one behind another.
fn message(alloc: Global, numbers: &[u32]) -> Result<Vec<u8>, NoMemory>
    ensures { IfOk result (λ bytes. bytes.items ≡ words numbers.now) }
{
    let mut writer = Writer::new(alloc);
    write_words(&mut writer, numbers)?;
    Ok(writer.finish())
}
