ghost use Rattle.std.specs.Prelude.{◌≡◌, IfOk};
ghost use Rattle.rpc_msg.specs.Messages.{auth_of, program_of};
ghost use Rattle.rpc_msg.specs.Heard.{AsTheyAre, Heard as HeardAs};
ghost use Rattle.rpc_msg.specs.Hearing.{heard_of, hear_call, hear_credential, hear_caller, hear_verifier, hear_program, hear_fault, why_number, as_they_are, outcome, MayBeCalled};

use crate::auth::{AUTH_NULL, AUTH_UNIX, Auth};
use crate::auth_why::AuthWhy;
use crate::cred::Cred;
use crate::head::{CALL, Head, RPC_VERSION};
use crate::heard::Heard;
use crate::program::Program;
use crate::reply::{
    PROC_UNAVAIL, PROG_UNAVAIL, refuse_call, refuse_caller, refuse_rpc, refuse_version,
};
use crate::rpc_call::RpcCall;
use crate::unix_body::UnixBody;
use sfs_base::Bytes;
use sfs_xdr::{Codec, ItemFault, NoMemory, Reader, XdrFault};
use std::alloc::Global;

/// Reads a message that came: a call of a procedure that is there, with all bytes behind its verifier as
/// arguments; a refusal, with its reply; or what is not answered (`docs/FORMATS.md`, "Calls"). A call that is heard has
/// at most [`MAX_GIDS`](crate::MAX_GIDS) further groups, and [`write_call`](crate::write_call) may write it again.
pub fn read_call(alloc: Global, bytes: &[u8]) -> Result<Heard, NoMemory>
    ensures exact { IfOk result (λ h. outcome h ≡ heard_of as_they_are bytes.now) }
    ensures heard { IfOk result (λ h. HeardAs AsTheyAre bytes.now (outcome h)) }
    ensures may { IfOk result MayBeCalled }
{
    hear_message(alloc, bytes)
}

// The head, and then what follows it.
#[tactic(auto, unfolding(crate::specs::Hearing::heard_of))]
fn hear_message(alloc: Global, bytes: &[u8]) -> Result<Heard, NoMemory>
    ensures { IfOk result (λ h. outcome h ≡ heard_of as_they_are bytes.now) }
{
    let mut reader = Reader::new(bytes);
    match Head::read(alloc, &mut reader) {
        Ok(head) => hear(alloc, &head, &mut reader),
        Err(ItemFault::Malformed) => Ok(Heard::Silent),
        Err(ItemFault::NoMemory) => Err(NoMemory),
    }
}

// What follows the head is heard as the rest of a call.
fn hear(alloc: Global, head: &Head, reader: &mut Reader) -> Result<Heard, NoMemory>
    ensures { IfOk result (λ h. outcome h ≡ hear_call as_they_are head.now reader.old) }
{
    if head.kind != CALL {
        return Ok(Heard::Silent);
    }
    if head.rpc_version != RPC_VERSION {
        return Ok(Heard::Refuse(refuse_rpc(alloc, head.xid, RPC_VERSION)?));
    }
    match Auth::read(reader) {
        Ok(credential) => hear_credential(alloc, head, &credential, reader),
        Err(fault) => hear_fault(alloc, head, AuthWhy::BadCredential, fault),
    }
}

// A credential or a verifier does not stand there whole.
fn hear_fault(alloc: Global, head: &Head, why: AuthWhy, fault: XdrFault) -> Result<Heard, NoMemory>
    ensures { IfOk result (λ h. outcome h ≡ hear_fault head.now (why_number why) fault) }
{
    match fault {
        XdrFault::TooLong => Ok(Heard::Refuse(refuse_caller(alloc, head.xid, why)?)),
        XdrFault::Short | XdrFault::NotBool => Ok(Heard::Silent),
    }
}

// Who calls is told by the credential, behind which the verifier stands.
fn hear_credential(
    alloc: Global,
    head: &Head,
    credential: &Auth,
    reader: &mut Reader,
) -> Result<Heard, NoMemory>
    ensures { IfOk result (λ h. outcome h ≡ hear_caller as_they_are head.now credential.now.flavor credential.now.body.now reader.old) }
{
    match credential.flavor {
        AUTH_NULL => hear_verifier(alloc, head, Cred::nobody(alloc), reader),
        AUTH_UNIX => match UnixBody::read(alloc, &mut Reader::new(credential.body)) {
            Ok(cred) => hear_verifier(alloc, head, cred, reader),
            Err(ItemFault::Malformed) => Ok(Heard::Refuse(refuse_caller(
                alloc,
                head.xid,
                AuthWhy::BadCredential,
            )?)),
            Err(ItemFault::NoMemory) => Err(NoMemory),
        },
        _ => Ok(Heard::Refuse(refuse_caller(alloc, head.xid, AuthWhy::RejectedCredential)?)),
    }
}

// The verifier has to be there; what it says is not looked at.
fn hear_verifier(
    alloc: Global,
    head: &Head,
    cred: Cred,
    reader: &mut Reader,
) -> Result<Heard, NoMemory>
    ensures { IfOk result (λ h. outcome h ≡ hear_verifier as_they_are head.now cred (auth_of reader.old)) }
{
    match Auth::read(reader) {
        Ok(_) => hear_program(alloc, head, cred, reader.rest()),
        Err(fault) => hear_fault(alloc, head, AuthWhy::BadVerifier, fault),
    }
}

// The program, its version and its procedure; what is left are the arguments.
fn hear_program(alloc: Global, head: &Head, cred: Cred, args: &[u8]) -> Result<Heard, NoMemory>
    ensures { IfOk result (λ h. outcome h ≡ hear_program as_they_are head.now cred args.now (program_of head.now.program)) }
{
    let Some(program) = Program::of(head.program) else {
        return Ok(Heard::Refuse(refuse_call(alloc, head.xid, PROG_UNAVAIL)?));
    };
    if head.version != program.version {
        return Ok(Heard::Refuse(refuse_version(alloc, head.xid, program.version)?));
    }
    if head.procedure > program.last_procedure {
        return Ok(Heard::Refuse(refuse_call(alloc, head.xid, PROC_UNAVAIL)?));
    }
    Ok(Heard::Call(RpcCall {
        xid: head.xid,
        program: head.program,
        procedure: head.procedure,
        cred,
        args: Bytes::from_slice(alloc, args)?,
    }))
}
