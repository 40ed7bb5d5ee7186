ghost use Rattle.std.specs.Prelude.{◌≡◌};
ghost use Rattle.std.specs.Str.{bytes_eq};
ghost use Rattle.fs_rules.specs.Handle.{handle};
ghost use Rattle.nfs_service.specs.Needs.{are_handles, generation_in, is_handle, is_number, needs_files};

use crate::request::Request;
use fs_rules::{Geometry, handle_of, number_at};
use nfs_proto::{Call, Handle};

/// How many numbers the inodes of a memory node have room for.
const NUMBERS_OF_A_MEMORY: u32 = 16_384;

/// Whether a request is a call of the file system whose handles all have their form and a number of the cluster.
pub fn needs_files(geometry: Geometry, request: &Request) -> bool
    ensures { result ≡ needs_files geometry request.now }
{
    match request {
        Request::Told(_) => false,
        Request::Silent => false,
        Request::Asked { call, .. } => are_handles(geometry, call),
    }
}

// Whether all handles of a call have their form and a number of the cluster.
fn are_handles(geometry: Geometry, call: &Call) -> bool
    ensures { result ≡ are_handles geometry call.now }
{
    match call {
        Call::Null | Call::Root | Call::WriteCache => true,
        Call::GetAttr { file }
        | Call::SetAttr { file, .. }
        | Call::ReadLink { file }
        | Call::Read { file, .. }
        | Call::Write { file, .. }
        | Call::StatFs { file } => is_handle(geometry, file),
        Call::Lookup { dir, .. }
        | Call::Create { dir, .. }
        | Call::Remove { dir, .. }
        | Call::SymLink { dir, .. }
        | Call::MakeDir { dir, .. }
        | Call::RemoveDir { dir, .. }
        | Call::ReadDir { dir, .. } => is_handle(geometry, dir),
        Call::Rename { from, to, .. } => is_handle(geometry, from) && is_handle(geometry, to),
        Call::Link { file, dir, .. } => is_handle(geometry, file) && is_handle(geometry, dir),
    }
}

// Whether a handle has its form and a number of the cluster.
fn is_handle(geometry: Geometry, handle: &Handle) -> bool
    ensures { result ≡ is_handle geometry handle.now.0 }
{
    let number = number_at(handle);
    has_form(handle, number) && is_number(geometry, number)
}

// Whether a handle is that of the file with this number and the generation that stands in it.
fn has_form(held: &Handle, number: u32) -> bool
    ensures { result ≡ bytes_eq held.now.0 (handle number (generation_in held.now.0)) }
{
    let own = handle_of(number, generation_at(held));
    held.0.as_slice() == own.0.as_slice()
}

// Whether a number is one of the cluster: the inode i of memory node m has the number 16384 * m + i + 1.
fn is_number(geometry: Geometry, number: u32) -> bool
    ensures { result ≡ is_number geometry number }
{
    if number == 0 {
        return false;
    }
    let place = number - 1;
    place / NUMBERS_OF_A_MEMORY < geometry.memories && place % NUMBERS_OF_A_MEMORY < geometry.inodes
}

// The generation that stands in a handle.
fn generation_at(handle: &Handle) -> u32
    ensures { result ≡ generation_in handle.now.0 }
{
    let bytes = &handle.0;
    u32::from_be_bytes([bytes[8], bytes[9], bytes[10], bytes[11]])
}
