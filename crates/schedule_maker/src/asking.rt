//! What the arrivals of a schedule ask for.
ghost use Rattle.std.specs.Prelude.{◌≡◌, ◌<◌, ◌≤◌, ◌∷◌, length, decimal, replicate, IfOk};
ghost use Rattle.schedule_maker.specs.Making.{call_of, datagram_of, handle_of, unset};
ghost use Rattle.nfs_proto.specs.Arguments.{IsFit, procedure_of};

use fs_layout::write_handle;
use itoa::Buffer;
use nfs_proto::{Call, Handle, Sattr, Stamp, write_args};
use rpc_msg::{Cred, NFS, RpcCall, write_call};
use sfs_base::{Bytes, NoMemory};
use std::alloc::Global;

/// A number that is not set.
const UNSET: u32 = u32::MAX;

/// How many bytes a WRITE writes, and which.
const WRITTEN: [u8; 100] = [b'a'; 100];

/// The datagram of the `i`-th arrival, which asks for this call.
pub fn datagram_of(alloc: Global, i: u32, call: &Call) -> Result<Bytes, NoMemory>
    requires { IsFit call.now }
    ensures exact { IfOk result (λ bytes. bytes ≡ datagram_of i call.now) }
{
    let call = RpcCall {
        xid: i,
        program: NFS,
        procedure: procedure_of(call),
        cred: Cred::nobody(alloc),
        args: Bytes::from(write_args(alloc, call)?),
    };
    Ok(Bytes::from(write_call(alloc, &call)?))
}

/// The call with this number, below 8, and the number of its name or place, below 16.
#[tactic(auto, unfolding(crate::specs::Making::call_of))]
pub fn call_of(alloc: Global, call: u32, j: u32) -> Result<Call, NoMemory>
    requires { j < 16 }
    ensures exact { IfOk result (λ made. made ≡ call_of call j) }
    ensures fits { IfOk result IsFit }
{
    let root = handle_of(1, 1);
    Ok(match call {
        0 => Call::Create {
            dir: root,
            name: name_of(alloc, b'f', j)?,
            set: unset(),
        },
        1 => Call::Lookup {
            dir: root,
            name: name_of(alloc, b'f', j)?,
        },
        2 => Call::Remove {
            dir: root,
            name: name_of(alloc, b'f', j)?,
        },
        3 => Call::MakeDir {
            dir: root,
            name: name_of(alloc, b'd', j)?,
            set: unset(),
        },
        4 => Call::RemoveDir {
            dir: root,
            name: name_of(alloc, b'd', j)?,
        },
        5 => Call::ReadDir {
            dir: root,
            cookie: 0,
            count: 4_096,
        },
        6 => Call::GetAttr { file: root },
        _ => Call::Write {
            file: handle_of(16_384 * (j % 4) + j / 4 + 2, 1),
            begin: 0,
            offset: 1_000 * j,
            total: 0,
            bytes: Bytes::from_slice(alloc, &WRITTEN)?,
        },
    })
}

// The number of the procedure of a call (RFC 1094, section 2.2).
fn procedure_of(call: &Call) -> u32
    ensures exact { result ≡ procedure_of call.now }
    ensures below { result ≤ 17 }
{
    match call {
        Call::Null => 0,
        Call::GetAttr { .. } => 1,
        Call::SetAttr { .. } => 2,
        Call::Root => 3,
        Call::Lookup { .. } => 4,
        Call::ReadLink { .. } => 5,
        Call::Read { .. } => 6,
        Call::WriteCache => 7,
        Call::Write { .. } => 8,
        Call::Create { .. } => 9,
        Call::Remove { .. } => 10,
        Call::Rename { .. } => 11,
        Call::Link { .. } => 12,
        Call::SymLink { .. } => 13,
        Call::MakeDir { .. } => 14,
        Call::RemoveDir { .. } => 15,
        Call::ReadDir { .. } => 16,
        Call::StatFs { .. } => 17,
    }
}

// The handle of a file.
fn handle_of(number: u32, generation: u32) -> Handle
    ensures { result ≡ handle_of number generation }
{
    Handle(write_handle(number, generation))
}

// Attributes of which none is set.
fn unset() -> Sattr
    ensures { result ≡ unset }
{
    let never = Stamp {
        sec: UNSET,
        usec: UNSET,
    };
    Sattr {
        mode: UNSET,
        uid: UNSET,
        gid: UNSET,
        size: UNSET,
        atime: never,
        mtime: never,
    }
}

// A letter and a number.
fn name_of(alloc: Global, letter: u8, j: u32) -> Result<Bytes, NoMemory>
    requires { j < 16 }
    ensures exact { IfOk result (λ name. name ≡ letter ∷ decimal j) }
    ensures short { IfOk result (λ name. length name ≤ 11) }
{
    let mut name = Vec::new(alloc);
    name.push(letter)?;
    let mut digits = Buffer::new();
    name.extend_from_slice(digits.format(j).as_bytes())?;
    Ok(Bytes::from(name))
}
