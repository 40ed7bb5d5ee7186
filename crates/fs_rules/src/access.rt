ghost use Rattle.std.specs.Prelude.{◌≡◌, ◌==◌};
ghost use Rattle.std.specs.List.{list_any};
ghost use Rattle.fs_rules.specs.Access.{is_of_group, class_bits, allowed_bits, is_allowed, may_by};

use fs_layout::Attrs;
use rpc_msg::Cred;

/// The right to read a file, in the bits of a mode (RFC 1094, section 2.3.5).
pub const READ: u32 = 4;

/// The right to write a file.
pub const WRITE: u32 = 2;

/// The right to run a regular file, and to search a directory.
pub const SEARCH: u32 = 1;

/// The user who may do everything.
pub const SUPERUSER: u32 = 0;

/// The number of the kind of a regular file (RFC 1094, section 2.3.2).
const REGULAR: u32 = 1;

/// Whether the caller may do all that `bits` say ([`READ`], [`WRITE`], [`SEARCH`]) with a file of these
/// attributes: user 0 everything, the owner by the first three bits of the mode and his regular file always
/// to read and write, one who is of its group by the next three, all others by the last three
/// (`docs/FORMATS.md`, "The rules of the file system"). It takes no memory.
pub fn may(file: &Attrs, cred: &Cred, bits: u32) -> bool
    ensures { result ≡ may_by file.now cred.now bits }
{
    is_allowed(file.kind, file.mode, file.uid, file.gid, cred, bits)
}

/// Whether the caller is of a group.
pub fn is_of_group(cred: &Cred, gid: u32) -> bool
    ensures { result ≡ is_of_group cred.now gid }
{
    cred.gid == gid || is_among(cred.gids.as_slice(), gid)
}

// Whether a group is one of these.
fn is_among(gids: &[u32], gid: u32) -> bool
    ensures { result ≡ list_any (λ g. g == gid) gids.now }
{
    gids.iter().any(|g| *g == gid)
}

/// The rule of access, over the fields of a file that it looks at. It takes no memory.
#[tactic(auto, unfolding(crate::specs::Access::is_allowed))]
pub fn is_allowed(kind: u32, mode: u32, uid: u32, gid: u32, cred: &Cred, bits: u32) -> bool
    ensures { result ≡ is_allowed kind mode uid gid cred.now bits }
{
    cred.uid == SUPERUSER || bits & allowed_bits(kind, mode, uid, gid, cred) == bits
}

// What the caller may do.
fn allowed_bits(kind: u32, mode: u32, uid: u32, gid: u32, cred: &Cred) -> u32
    ensures { result ≡ allowed_bits kind mode uid gid cred.now }
{
    let bits = class_bits(mode, uid, gid, cred);
    if kind == REGULAR && cred.uid == uid {
        (READ | WRITE) | bits
    } else {
        bits
    }
}

// The bits of the mode that are the caller's.
fn class_bits(mode: u32, uid: u32, gid: u32, cred: &Cred) -> u32
    ensures { result ≡ class_bits mode uid gid cred.now }
{
    if cred.uid == uid {
        mode / 64 % 8
    } else if is_of_group(cred, gid) {
        mode / 8 % 8
    } else {
        mode % 8
    }
}
