ghost use Rattle.std.specs.Prelude.{◌≡◌, ◌≤◌, ℕ, List, length, Ok, Err, IfOk};
ghost use Rattle.sfs_xdr.specs.Items.{words};
ghost use Rattle.sfs_xdr.specs.declared.arg_fault.ArgFault.TheVariants as fault;
ghost use Rattle.nfs_proto.specs.Arguments.{args_of, IsFit};
ghost use Rattle.rpc_msg.specs.Messages.{accepted, garbage_arguments};
ghost use Rattle.nfs_service.specs.declared.request.Request.TheVariants as request;
ghost use Rattle.rpc_msg.specs.Laws.{called_of};
ghost use Rattle.nfs_service.specs.Reply.{heard, asked, asked_of_files, asked_to_mount, called, does_nothing, IsSized, AsksFit};

use mount_proto::ArgFault;
use nfs_proto::{Call, read_args};
use rpc_msg::{Cred, Heard, NFS, RpcCall, read_call, write_garbage, write_reply};
use sfs_base::{Bytes, NoMemory};
use std::alloc::Global;

/// What a datagram asks for.
#[derive(Debug, Drop)]
pub enum Request {
    /// It gets this reply, whatever the files are.
    Told(Bytes),
    /// It gets no reply.
    Silent,
    /// A call of the file system, under this xid.
    Asked { xid: u32, call: Call, cred: Cred },
}

impl Request {
    /// What these bytes ask for.
    pub fn read(alloc: Global, bytes: &[u8]) -> Result<Request, NoMemory>
        ensures exact { IfOk result (λ request. request ≡ heard bytes.now) }
        ensures sized { IfOk result IsSized }
        ensures fits { IfOk result AsksFit }
    {
        match read_call(alloc, bytes)? {
            Heard::Call(call) => Request::of_call(alloc, call),
            Heard::Refuse(reply) => Ok(Request::Told(reply)),
            Heard::Silent => Ok(Request::Silent),
        }
    }

    // What a call of a procedure that is there asks for.
    fn of_call(alloc: Global, call: RpcCall) -> Result<Request, NoMemory>
        ensures exact { IfOk result (λ request. request ≡ asked (called_of call)) }
        ensures sized { IfOk result IsSized }
        ensures fits { IfOk result AsksFit }
    {
        if call.program == NFS {
            Request::of_files(alloc, call)
        } else {
            Request::of_mount(alloc, &call)
        }
    }

    // What a call of NFS asks for.
    fn of_files(alloc: Global, call: RpcCall) -> Result<Request, NoMemory>
        ensures exact { IfOk result (λ request. request ≡ asked_of_files (called_of call)) }
        ensures sized { IfOk result IsSized }
        ensures fits { IfOk result AsksFit }
    {
        match read_call_of_files(alloc, call.procedure, call.args.as_slice()) {
            Ok(asked) => Request::called(alloc, call.xid, asked, call.cred),
            Err(ArgFault::NoMemory) => Err(NoMemory),
            Err(_) => Request::garbage(alloc, call.xid),
        }
    }

    // What a call of the file system asks for: some do nothing.
    fn called(alloc: Global, xid: u32, call: Call, cred: Cred) -> Result<Request, NoMemory>
        requires { IsFit call }
        ensures exact { IfOk result (λ request. request ≡ called xid call cred) }
        ensures sized { IfOk result IsSized }
        ensures fits { IfOk result AsksFit }
    {
        if does_nothing(&call) {
            return Request::told(alloc, xid, &[]);
        }
        Ok(Request::Asked { xid, call, cred })
    }

    // What a call of the mount protocol asks for.
    fn of_mount(alloc: Global, call: &RpcCall) -> Result<Request, NoMemory>
        ensures exact { IfOk result (λ request. request ≡ asked_to_mount (called_of call.now)) }
        ensures sized { IfOk result IsSized }
        ensures fits { IfOk result AsksFit }
    {
        match mount_proto::answer(alloc, call.procedure, call.args.as_slice()) {
            Ok(body) => Request::told(alloc, call.xid, body.as_slice()),
            Err(ArgFault::NoMemory) => Err(NoMemory),
            Err(_) => Request::garbage(alloc, call.xid),
        }
    }

    // It gets the accepted reply with this result.
    fn told(alloc: Global, xid: u32, body: &[u8]) -> Result<Request, NoMemory>
        ensures exact { IfOk result (λ r. r ≡ request.Told (accepted xid body.now)) }
        ensures sized { (numbers : List ℕ) → length numbers ≤ 18 → body.now ≡ words numbers → IfOk result IsSized }
        ensures fits { IfOk result AsksFit }
    {
        Ok(Request::Told(Bytes::from(write_reply(alloc, xid, body)?)))
    }

    // Its arguments are out of form.
    fn garbage(alloc: Global, xid: u32) -> Result<Request, NoMemory>
        ensures exact { IfOk result (λ r. r ≡ request.Told (garbage_arguments xid)) }
        ensures sized { IfOk result IsSized }
        ensures fits { IfOk result AsksFit }
    {
        Ok(Request::Told(Bytes::from(write_garbage(alloc, xid)?)))
    }
}

// The call that these arguments of a procedure of NFS spell: what it names is not too long.
fn read_call_of_files(alloc: Global, procedure: u32, args: &[u8]) -> Result<Call, ArgFault>
    ensures found { IfOk result (λ call. args_of procedure args.now ≡ Ok call) }
    ensures no_procedure { result ≡ Err fault.NoProcedure → args_of procedure args.now ≡ Err fault.NoProcedure }
    ensures garbage { result ≡ Err fault.Garbage → args_of procedure args.now ≡ Err fault.Garbage }
    ensures fits { IfOk result IsFit }
{
    read_args(alloc, procedure, args)
}

// Whether a call does nothing, whatever the files are (RFC 1094, section 2.2).
fn does_nothing(call: &Call) -> bool
    ensures { result ≡ does_nothing call.now }
{
    matches!(call, Call::Null | Call::Root | Call::WriteCache)
}
