ghost use Rattle.std.specs.Prelude.{◌≡◌, ◌*◌, ◌^◌, ◌<◌, ◌≤◌};

use crate::access::is_allowed;
use crate::content::{BLOCK_BYTES, Content};
use nfs_proto::{Fattr, Stamp};
use rpc_msg::Cred;

/// What a client is told of the file system that all files lie on.
const FSID: u32 = 1;

/// How many of the units in which a client is told of blocks a block has.
const UNITS_PER_BLOCK: usize = 8;

/// A file of the plain tree.
#[derive(Debug, Drop)]
pub struct File {
    pub content: Content,
    /// The 12 bits of its mode that are no type.
    pub mode: u32,
    pub links: u32,
    pub uid: u32,
    pub gid: u32,
    pub size: u32,
    /// How often its number was used for a file.
    pub generation: u32,
    /// How often its number's file was changed.
    pub change: u64,
    pub atime: Stamp,
    pub mtime: Stamp,
    pub ctime: Stamp,
}

impl File {
    ghost use Rattle.fs_rules.specs.File.{used, fattr_of};
    ghost use Rattle.fs_rules.specs.Access.{may};

    /// What a client is told of the file with this number (RFC 1094, section 2.3.5). Its mode and its
    /// blocks are exact where they fit, as those of each file of a good tree do.
    pub fn fattr(&self, number: u32) -> Fattr
        ensures { self.now.mode ≤ 0o7777 → 8 * used self.now.content < 2 ^ 32 → result ≡ fattr_of number self.now }
    {
        let blocks = self.content.used().saturating_mul(UNITS_PER_BLOCK);
        Fattr {
            kind: self.content.kind(),
            mode: self.content.type_bits().saturating_add(self.mode),
            links: self.links,
            uid: self.uid,
            gid: self.gid,
            size: self.size,
            block_size: BLOCK_BYTES,
            rdev: 0,
            blocks: u32::try_from(blocks).unwrap_or(u32::MAX),
            fsid: FSID,
            fileid: number,
            atime: self.atime,
            mtime: self.mtime,
            ctime: self.ctime,
        }
    }

    /// Whether the caller may do all that `bits` say with this file (`docs/FORMATS.md`, "The rules of the
    /// file system").
    pub fn may(&self, cred: &Cred, bits: u32) -> bool
        ensures { result ≡ may self.now cred.now bits }
    {
        is_allowed(
            self.content.kind(),
            self.mode,
            self.uid,
            self.gid,
            cred,
            bits,
        )
    }
}
