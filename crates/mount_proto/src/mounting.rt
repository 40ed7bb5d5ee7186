ghost use Rattle.std.specs.Prelude.{◌≡◌, ℕ, List, [], ◌∷◌, Ok, Err, IfOk};
ghost use Rattle.sfs_xdr.specs.Items.{words};
ghost use Rattle.sfs_xdr.specs.Codec.{text_item};
ghost use Rattle.sfs_xdr.specs.declared.arg_fault.ArgFault.{ArgFault as Fault};
ghost use Rattle.sfs_xdr.specs.declared.arg_fault.ArgFault.TheVariants as fault;
ghost use Rattle.mount_proto.specs.Mount.{answer_of, mounted, root_handle, with_path};

use fs_layout::write_handle;
use sfs_xdr::{ArgFault, Bytes, Reader, Writer, write_words};
use std::alloc::Global;

/// The last procedure of the program (RFC 1094, appendix A.5).
pub const LAST_PROCEDURE: u32 = 5;

/// The most bytes of a path (RFC 1094, appendix A.3).
pub const MAX_PATH_BYTES: u32 = 1_024;

/// The status of a path that is not exported: there is no such file (RFC 1094, appendix A.4).
const NO_ENTRY: u32 = 2;

/// The status of a path that is exported (RFC 1094, appendix A.4).
const OK: u32 = 0;

/// The number and the generation of the root directory.
const ROOT: (u32, u32) = (1, 1);

/// The one export: "/", which every client may mount, and nothing behind it.
const EXPORTS: [u32; 5] = [1, 1, 0x2f00_0000, 0, 0];

/// The result of a procedure (RFC 1094, appendix A.5): NULL 0, MNT 1, DUMP 2, UMNT 3, UMNTALL 4, EXPORT 5.
/// `NoProcedure` exactly where the number is above [`LAST_PROCEDURE`]; `Garbage` exactly where the bytes
/// of MNT or UMNT begin with no path of at most [`MAX_PATH_BYTES`].
#[tactic(auto, unfolding(crate::specs::Mount::answer_of))]
pub fn answer(alloc: Global, procedure: u32, args: &[u8]) -> Result<Bytes, ArgFault>
    ensures found { IfOk result (λ bytes. answer_of procedure args.now ≡ Ok bytes) }
    ensures no_procedure { result ≡ Err fault.NoProcedure → answer_of procedure args.now ≡ Err fault.NoProcedure }
    ensures garbage { result ≡ Err fault.Garbage → answer_of procedure args.now ≡ Err fault.Garbage }
{
    match procedure {
        0 | 4 => Ok(Bytes::new(alloc)),
        1 => mount(alloc, args),
        2 => spelled(alloc, &[0]),
        3 => unmount(alloc, args),
        5 => spelled(alloc, &EXPORTS),
        _ => Err(ArgFault::NoProcedure),
    }
}

// MNT: the handle of the root for "/", and for no other path.
fn mount(alloc: Global, args: &[u8]) -> Result<Bytes, ArgFault>
    ensures found { IfOk result (λ bytes. with_path mounted (text_item 1024 args.now) ≡ Ok bytes) }
    ensures garbage { result ≡ Err fault.Garbage → with_path mounted (text_item 1024 args.now) ≡ Err fault.Garbage }
    ensures there { result ≡ Err fault.NoProcedure → ⊥ }
{
    let path = read_path(args)?;
    if path == b"/".as_slice() {
        mounted_root(alloc)
    } else {
        spelled(alloc, &[NO_ENTRY])
    }
}

// OK, and the handle of the root.
#[tactic(auto, using(crate::proofs::RootLemmas::root_is))]
fn mounted_root(alloc: Global) -> Result<Bytes, ArgFault>
    ensures found { IfOk result (λ bytes. bytes ≡ words (0 ∷ root_handle)) }
    ensures no_memory { (f : Fault) → result ≡ Err f → f ≡ fault.NoMemory }
{
    let mut writer = Writer::new(alloc);
    writer.u32(OK)?;
    writer.opaque(&write_handle(ROOT.0, ROOT.1))?;
    Ok(Bytes::from(writer.finish()))
}

// UMNT: nothing is kept of a mount, so that there is nothing to forget.
fn unmount(alloc: Global, args: &[u8]) -> Result<Bytes, ArgFault>
    ensures found { IfOk result (λ bytes. with_path (λ path. []) (text_item 1024 args.now) ≡ Ok bytes) }
    ensures garbage { result ≡ Err fault.Garbage → with_path (λ path. []) (text_item 1024 args.now) ≡ Err fault.Garbage }
    ensures there { result ≡ Err fault.NoProcedure → ⊥ }
{
    read_path(args)?;
    Ok(Bytes::new(alloc))
}

// The path that the arguments begin with, where it stands.
#[tactic(auto, unfolding(sfs_xdr::specs::Codec::plainly))]
fn read_path(args: &[u8]) -> Result<&[u8], ArgFault>
    ensures found { IfOk result (λ path. (rest : List ℕ) × (text_item 1024 args.now ≡ Ok (path.now, rest))) }
    ensures garbage { result ≡ Err fault.Garbage → text_item 1024 args.now ≡ Err tt }
    ensures there { result ≡ Err fault.NoProcedure → ⊥ }
{
    match Reader::new(args).opaque_max(MAX_PATH_BYTES) {
        Ok(path) => Ok(path),
        Err(_) => Err(ArgFault::Garbage),
    }
}

// A result of these numbers.
fn spelled(alloc: Global, numbers: &[u32]) -> Result<Bytes, ArgFault>
    ensures found { IfOk result (λ bytes. bytes ≡ words numbers.now) }
    ensures no_memory { (f : Fault) → result ≡ Err f → f ≡ fault.NoMemory }
{
    let mut writer = Writer::new(alloc);
    write_words(&mut writer, numbers)?;
    Ok(Bytes::from(writer.finish()))
}
